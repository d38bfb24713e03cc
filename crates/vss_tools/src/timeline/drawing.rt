ghost use Rattle.std.specs.Prelude.{◌≡◌, None, IfOk, IfErr, OnOk};
ghost use Rattle.vss_tools.specs.Ended.{IsCause, IsEnded, IsPage};
ghost use Rattle.vss_tools.specs.Refused.{refusal};

use crate::timeline::ended::Ended;
use crate::timeline::form::Form;
use crate::timeline::picture::Picture;
use crate::timeline::picture_error::PictureError;
use crate::timeline::plain::to_lines;
use crate::timeline::run::Run;
use crate::timeline::svg::to_svg;
use io_edge::{Sink, write_all};
use std::alloc::Global;
use vss_names::{OutOfMemory, Text};

/// The text of a picture in a form.
fn page(alloc: Global, form: Form, name: &str, picture: &Picture<'_>) -> Result<Text, OutOfMemory>
    ensures { IfOk result (λ text. IsPage text.bytes form) }
{
    match form {
        Form::Drawing => to_svg(alloc, name, picture),
        Form::Lines => to_lines(alloc, name, picture),
    }
}

/// The text of the picture of a run in a form.
fn page_of(alloc: Global, form: Form, run: Run<'_>) -> Result<Text, PictureError>
    ensures page { IfOk result (λ text. IsPage text.bytes form) }
    ensures good { OnOk result (refusal run.entry.scenario.now run.entry.report.now ≡ None) }
    ensures refused { IfErr result (IsCause run.entry.scenario.now run.entry.report.now) }
{
    let picture = match Picture::of(alloc, run.scenario, run.report, run.span, run.axis) {
        Ok(picture) => picture,
        Err(error) => return Err(error),
    };
    match page(alloc, form, run.name, &picture) {
        Ok(text) => Ok(text),
        Err(OutOfMemory) => Err(PictureError::OutOfMemory),
    }
}

/// Writes the picture of a run to a sink.
pub fn draw<K: Sink>(alloc: Global, form: Form, run: Run<'_>, sink: &mut K) -> Ended
    ensures { IsEnded (record {
      form = form;
      scenario = run.entry.scenario.now;
      report = run.entry.report.now;
      taken_first = K.taken sink.old;
      taken_last = K.taken sink.new;
      writes_first = K.count sink.old;
      writes_last = K.count sink.new;
    }) result }
{
    let text = match page_of(alloc, form, run) {
        Ok(text) => text,
        Err(PictureError::Refused(why)) => return Ended::Refused(why),
        Err(PictureError::OutOfMemory) => return Ended::OutOfMemory,
    };
    match write_all(sink, text.bytes()) {
        Ok(()) => Ended::Written,
        Err(_) => Ended::WriteFault,
    }
}
