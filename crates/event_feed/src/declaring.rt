//! What the numbers of a line declare: a ratio and a version, and perhaps a factor; and the line that declares them.
ghost use Rattle.dover_model.specs.Common.{HasNumerals, IsRatio, fraction, with_factor, declared_rules};
ghost use Rattle.dover_model.specs.Common.{declared_version, factor_rules, rules_with};
ghost use Rattle.std.specs.Prelude.{◌≡◌, Option, option_map};
ghost use Rattle.event_feed.specs.Reading.{declared_number, rules_line};
ghost use Rattle.line_text.specs.feeds.Form.{form_of};

use dover_model::{Ratio, Version};
use line_text::feeds::FeedLine;

/// The version of this number: none stands for One.
fn version_of(number: Option<u64>) -> Option<Version>
    ensures { result ≡ declared_version number }
{
    match number {
        None => Some(Version::One),
        Some(2) => Some(Version::Two),
        Some(3) => Some(Version::Three),
        Some(4) => Some(Version::Four),
        Some(_) => None,
    }
}

/// The ratio and the version that these numbers declare: p/q where it is within the limits of a ratio,
/// and version One where no number of a version stands, Two where it is 2, Three where it is 3, Four where it is 4.
pub fn declared(p: u64, q: u64, version: Option<u64>) -> Option<(Ratio, Version)>
    ensures { option_map (λ declared. rules_with declared.0 declared.1) result
        ≡ declared_rules (fraction p q) version }
{
    let ratio = Ratio::from_numbers(p, q)?;
    let version = version_of(version)?;
    Some((ratio, version))
}

/// The ratio with the factor b/c, and version Three or Four, where the number is 3 or 4 and all are within the limits.
pub fn declared_with_factor(
    p: u64,
    q: u64,
    version: u64,
    b: u64,
    c: u64,
) -> Option<(Ratio, Version)>
    ensures { option_map (λ declared. rules_with declared.0 declared.1) result
        ≡ factor_rules (with_factor (fraction p q) b c) version }
{
    let ratio = Ratio::of_numbers(p, q, Some((b, c)))?;
    let version = match version {
        3 => Version::Three,
        4 => Version::Four,
        _ => return None,
    };
    Some((ratio, version))
}

/// The number with which a line without a factor declares a version.
fn plain_number(version: Version) -> Option<u64>
    ensures { result ≡ declared_number version }
{
    match version {
        Version::One => None,
        Version::Two => Some(2),
        Version::Three => Some(3),
        Version::Four => Some(4),
    }
}

/// The line that declares the ratio and the version, and the factor if there is one.
pub fn rules_line(ratio: Ratio, version: Version) -> FeedLine
    ensures is { form_of result ≡ rules_line (rules_with ratio version) }
    ensures numerals { HasNumerals (form_of result) }
    ensures ratio { IsRatio ratio }
{
    let (p, q) = (u64::from(ratio.p()), u64::from(ratio.q()));
    match ratio.factor() {
        None => FeedLine::Declared {
            p,
            q,
            version: plain_number(version),
        },
        Some(factor) => FeedLine::Factored {
            p,
            q,
            version: version.number(),
            b: u64::from(factor.b),
            c: u64::from(factor.c),
        },
    }
}
