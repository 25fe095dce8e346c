//! The names of tasks.
ghost use Rattle.std.specs.Prelude.{◌≡◌, ◌≤◌, length};
ghost use Rattle.std.specs.List.{list_all};
ghost use Rattle.task_words.specs.tasks.Names as model;

use line_text::BackLine;

/// The most bytes that a name has.
const NAME_BYTES: usize = 16;

/// The name of a task: 1 to 16 letters, digits, `-` and `_`; or none, which has no bytes.
#[derive(Clone, Copy)]
pub struct TaskName {
    bytes: [u8; NAME_BYTES],
    count: usize,
}

/// Whether a name may have the byte.
fn is_name_byte(byte: u8) -> bool
    ensures { result ≡ model.is_name_byte byte }
{
    byte.is_ascii_alphanumeric() || byte == b'-' || byte == b'_'
}

/// Whether a name may have all these bytes.
fn are_name_bytes(bytes: &[u8]) -> bool
    ensures { result ≡ list_all model.is_name_byte bytes.now }
{
    for at in 0..bytes.len() {
        if !is_name_byte(bytes[at]) {
            return false;
        }
    }
    true
}

/// Whether the bytes are a name.
fn is_name(bytes: &[u8]) -> bool
    ensures { result ≡ model.is_name bytes.now }
{
    if bytes.is_empty() {
        return false;
    }
    if bytes.len() > NAME_BYTES {
        return false;
    }
    are_name_bytes(bytes)
}

/// The bytes of a name, and zeros behind them.
fn padded(name: &[u8]) -> [u8; NAME_BYTES]
    requires { length name.now ≤ 16 }
    ensures { result ≡ model.padded name.now }
{
    let mut bytes = [0; NAME_BYTES];
    bytes[..name.len()].copy_from_slice(name);
    bytes
}

impl TaskName {
    ghost use Rattle.std.specs.Prelude.{◌≡◌, ◌≤◌, ◌++◌, ◌∷◌, [], length, Some, None, if◌then◌else◌};
    ghost use Rattle.task_words.specs.tasks.Names as model;

    /// No name.
    pub fn none() -> TaskName
        ensures { result ≡ model.unnamed }
    {
        TaskName {
            bytes: [0; NAME_BYTES],
            count: 0,
        }
    }

    /// The name of these bytes, if they are one.
    pub fn of(name: &[u8]) -> Option<TaskName>
        ensures { result ≡ (if model.is_name name.now then Some (model.named name.now) else None) }
    {
        if !is_name(name) {
            return None;
        }
        let bytes = padded(name);
        Some(TaskName {
            bytes,
            count: name.len(),
        })
    }

    /// Its bytes, none where there is no name.
    pub fn as_slice(&self) -> &[u8]
        ensures is { result.now ≡ model.name_bytes self.now }
        ensures short { length result.now ≤ 16 }
    {
        &self.bytes[..self.count.min(NAME_BYTES)]
    }

    /// Writes the name behind a space before a line feed, or nothing where there is none.
    pub fn write(&self, line: &mut BackLine)
        requires { line.old ≡ 10 ∷ [] }
        ensures is { line.new ≡ model.name_text self.now ++ 10 ∷ [] }
        ensures fits { length line.new ≤ 18 }
    {
        let name = self.as_slice();
        if !name.is_empty() {
            line.put_word(name);
            line.put_word(b" ");
        }
    }
}
