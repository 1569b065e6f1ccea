//! What goes on after a part of a body or of a conversion.
ghost use Rattle.wjs_model.specs.Soundness.{HasCompletion, HasPoint};
ghost use Rattle.wjs_frames.specs.Handling.{Runs, Resumes};

use crate::conversions::{integer_of_primitive, number_of_primitive, text_of_primitive};
use crate::methods::{after_first_method, after_second_method};
use crate::programs::{after_program_element, after_program_value, next_program};
use wjs_base::OutOfMemory;
use wjs_direct::{after_body_element, after_body_value};
use wjs_model::{CallPoint, Completion, Config, Frame, Point};
use wjs_store::WorldStore;

/// The frame goes on with the completion of what it waited for.
pub fn call_after<S: WorldStore>(
    config: &mut Config<S>,
    frame: Frame,
    point: CallPoint,
    completion: Completion,
) -> Result<(), OutOfMemory>
    requires runs { Runs S.meaning config.old frame }
    requires point { HasPoint config.old frame (Point.Call point) }
    requires completion { HasCompletion config.old completion }
    ensures { Resumes S.meaning frame (Point.Call point) completion config.old config.new result }
{
    match point {
        CallPoint::NextProgram => next_program(config, frame, completion),
        CallPoint::ProgramElement(next) => after_program_element(config, frame, next, completion),
        CallPoint::BodyElement(next) => after_body_element(config, frame, next, completion),
        CallPoint::ProgramValue(next) => after_program_value(config, frame, next, completion),
        CallPoint::BodyValue(next) => after_body_value(config, frame, next, completion),
        CallPoint::FirstMethod(hint) => after_first_method(config, frame, hint, completion),
        CallPoint::SecondMethod => after_second_method(config, frame, completion),
        CallPoint::NumberOfPrimitive => number_of_primitive(config, frame, completion),
        CallPoint::TextOfPrimitive => text_of_primitive(config, frame, completion),
        CallPoint::IntegerOfPrimitive => integer_of_primitive(config, frame, completion),
    }
}
