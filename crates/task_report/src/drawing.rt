//! Pictures of a run, by tasks.
ghost use Rattle.std.specs.Prelude.{◌≡◌, ◌≢◌, ◌++◌, ◌∷◌, [], map, codes, IfOk, OnOk};
ghost use Rattle.run_reports.specs.views.Templates.{filled};
ghost use Rattle.dover_model.specs.Instance.{Instance};
ghost use Rattle.run_record.specs.intervals.Rows.{IsRunOf};
ghost use Rattle.task_report.specs.Pictures as pictures;
ghost use Rattle.task_report.specs.declared.form.TaskForm.TheVariants.{Lines};

use crate::form::TaskForm;
use crate::sorting::sort_jobs;
use dover_model::{Memory, PackedEvent, Ratio};
use run_picture::grouped_picture;
use run_reports::report::released;
use run_reports::views::grouped_timeline;
use run_reports::views::template::put;
use std::alloc::Global;
use task_words::tasks::{PeriodicTask, TaskName};

/// A label of these bytes.
fn copied(alloc: Global, bytes: &[u8]) -> Result<Vec<u8>, Memory>
    ensures { IfOk result (λ label. label.items ≡ bytes.now) }
{
    let mut label = Vec::new(alloc);
    label.extend_from_slice(bytes)?;
    Ok(label)
}

/// The label of a task without a name.
fn numbered(alloc: Global, number: usize) -> Result<Vec<u8>, Memory>
    ensures { IfOk result (λ label. label.items ≡ filled (codes "task @") (number ∷ [])) }
{
    let mut label = Vec::new(alloc);
    put(&mut label, b"task @", &[number as u64])?;
    Ok(label)
}

/// The label of a task: its name, or its number where it has none.
fn label_of(alloc: Global, number: usize, name: &TaskName) -> Result<Vec<u8>, Memory>
    ensures { IfOk result (λ label. label.items ≡ pictures.label_of number name.now) }
{
    let bytes = name.as_slice();
    if bytes.is_empty() {
        return numbered(alloc, number);
    }
    copied(alloc, bytes)
}

/// Appends the label of the jobs that are of no task, if there are any.
fn put_other(alloc: Global, labels: &mut Vec<Vec<u8>>, some: bool) -> Result<(), Memory>
    ensures { OnOk result (map (λ label. label.items) labels.new.items
        ≡ map (λ label. label.items) labels.old.items ++ pictures.other_label some) }
{
    if !some {
        return Ok(());
    }
    let label = copied(alloc, b"other")?;
    labels.push(label)?;
    Ok(())
}

/// The labels of all tasks, and of the jobs that are of no task, if there are any, where the jobs are of these tasks.
fn labels(alloc: Global, tasks: &[PeriodicTask], of: &[usize]) -> Result<Vec<Vec<u8>>, Memory>
    ensures { IfOk result (λ labels. map (λ label. label.items) labels.items ≡ pictures.labels tasks.now of.now) }
{
    let mut labels = Vec::new(alloc);
    for number in 0..tasks.len() {
        let label = label_of(alloc, number, &tasks[number].name)?;
        labels.push(label)?;
    }
    let some = of.contains(&tasks.len());
    put_other(alloc, &mut labels, some)?;
    Ok(labels)
}

/// The picture of the run that prints these steps, and of how many lines were refused, by tasks.
pub(crate) fn picture(
    alloc: Global,
    form: TaskForm,
    tasks: &[PeriodicTask],
    ratio: Ratio,
    steps: &[PackedEvent],
    refused: u64,
) -> Result<Vec<u8>, Memory>
    requires run { (J : Instance) × IsRunOf ratio steps.now J }
    requires drawn { form ≢ Lines }
    ensures { (J : Instance) → IsRunOf ratio steps.now J →
        IfOk result (λ text. pictures.IsTaskReport form tasks.now J text.items) }
{
    let jobs = released(alloc, steps)?;
    let of = sort_jobs(alloc, tasks, &jobs)?;
    let labels = labels(alloc, tasks, &of)?;
    match form {
        TaskForm::Timeline(window) => grouped_timeline(alloc, ratio, steps, window, &of, &labels),
        TaskForm::Svg(window) => grouped_picture(
            alloc, ratio, steps, refused, window, &of, &labels,
        ),
        TaskForm::Lines => unreachable!(),
    }
}
