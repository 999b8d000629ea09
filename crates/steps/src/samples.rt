//! The samples of the output, read from the cells of a crew that has finished.

ghost use Rattle.std.specs.Prelude.{◌≡◌, ◌<◌, true, IfOk};
ghost use Rattle.algo.specs.View.{samples_of};
ghost use Rattle.checked_plan.specs.View.{algorithm_checked};
ghost use Rattle.meaning.specs.Image.Raster.{is_within, natural, raster_point, sample_count};
ghost use Rattle.meaning.specs.Picture.{picture};
ghost use Rattle.meaning.specs.Value.{output_value};
ghost use Rattle.steps.specs.Complete.{IsComplete};

use crate::job::PlanJob;
use crate::state::State;
use checked_plan::output::OutputCells;
use std::alloc::{AllocError, Global};

/// The output's value at a point, as its cell holds it.
fn value_at(job: &PlanJob<'_>, state: &State, cells: &OutputCells<'_>, at: &[i64]) -> u16
    requires complete { IsComplete job.now.checked.now job.now.inputs.now state.now.table }
    requires cells { cells.now.checked.now ≡ job.now.checked.now }
    requires within { is_within (algorithm_checked job.now.checked.now).output_extents at.now ≡ true }
    ensures { result ≡ natural (output_value (algorithm_checked job.now.checked.now) (samples_of job.now.inputs.now) at.now) }
{
    match state.cell(cells.cell_of(at)) {
        Some(value) => value as u16,
        None => unreachable!(),
    }
}

/// The output's sample at a place of the raster.
fn sample_at(
    job: &PlanJob<'_>,
    state: &State,
    cells: &OutputCells<'_>,
    extents: &[u32],
    place: usize,
) -> u16
    requires complete { IsComplete job.now.checked.now job.now.inputs.now state.now.table }
    requires cells { cells.now.checked.now ≡ job.now.checked.now }
    requires extents { extents.now ≡ (algorithm_checked job.now.checked.now).output_extents }
    requires place { place < sample_count extents.now }
    ensures { result ≡ natural (output_value (algorithm_checked job.now.checked.now) (samples_of job.now.inputs.now) (raster_point extents.now place)) }
{
    match extents {
        [_] => value_at(job, state, cells, &[place as i64]),
        [width, _] => {
            let width = *width as usize;
            let at = [(place % width) as i64, (place / width) as i64];
            value_at(job, state, cells, &at)
        }
        [width, _, colours] => {
            let (width, colours) = (*width as usize, *colours as usize);
            let pixel = place / colours;
            let at = [
                (pixel % width) as i64,
                (pixel / width) as i64,
                (place % colours) as i64,
            ];
            value_at(job, state, cells, &at)
        }
        _ => unreachable!(),
    }
}

/// The output's samples in raster order, where all cells hold their values. A sample takes 2 bytes.
pub(crate) fn output_samples(
    alloc: Global,
    job: &PlanJob<'_>,
    state: &State,
) -> Result<Vec<u16>, AllocError>
    requires { IsComplete job.now.checked.now job.now.inputs.now state.now.table }
    ensures { IfOk result (λ samples. samples.items ≡ picture (algorithm_checked job.now.checked.now) (samples_of job.now.inputs.now)) }
{
    let cells = OutputCells::of(alloc, job.checked)?;
    let shape = &job.checked.algo().output().shape;
    let mut samples = Vec::new(alloc);
    for place in 0..shape.sample_count() {
        samples.push(sample_at(job, state, &cells, shape.extents.as_slice(), place))?;
    }
    Ok(samples)
}
