//! Laws: answers don't depend on the sizes of reads.
ghost use Rattle.till_request.specs.declared.act.Role.{Role};
ghost use Rattle.line_session.specs.ReadSizes.{IsDetermined, IsIndependentOfReadSizes};
ghost use Rattle.line_session.specs.ReadSizes.{IsClockDetermined, IsDeskDetermined};
ghost use Rattle.line_session.specs.Session.{desk_answers};

use crate::desk::{Clock, Desk};
use crate::line_handler::LineHandler;

/// A law: the sizes of an input's reads change no answer, for a handler that in each state of the clock and the desk
/// can give only one answer to a line, with only one state behind it, unless memory runs out.
///
/// So a loop that lost bytes behind a line's LF, or took the bytes of one read for a line, couldn't have the contract
/// of `answer_lines`.
pub fn law_of_read_sizes<C, D, S: LineHandler<C, D>>()
    // proved: The sizes of the reads change no answer
    ensures { (handler : S) → IsDetermined (S.answers_with handler)
        → IsIndependentOfReadSizes (S.answers_with handler) }
{}

/// The same law for the sessions of a role, at a clock and a desk of which each state leads to one next state.
pub fn law_of_read_sizes_at_desks<C: Clock, D: Desk>()
    // proved: Nor do they at a desk
    ensures { (role : Role) → IsClockDetermined C.tick → IsDeskDetermined D.step D.looks
        → IsIndependentOfReadSizes (desk_answers D.step D.looks C.tick role) }
{}
