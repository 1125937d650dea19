//! Messages on standard error about a script's loads that the verifier refuses. The answer to such a load, on standard
//! output, has only the refusal's number.
use crate::PlayNotices;
use crate::messages::print_message;
use crate::progress::Progress;
use crate::reasons::explain_refusal;
use std::alloc::AllocError;
use std::cell::Cell;
use till_request::Act;
use verifier::Refusal;

/// Prints why a load is refused, with the number of its line.
#[derive(Drop)]
pub struct RefusedLoads<'a, 'b> {
    rt: &'a HostRuntime,
    name: &'a str,
    /// How many lines of the input have begun, with those before the script.
    lines: Cell<u64>,
    /// Erased before a message.
    progress: Option<&'b Progress<'a>>,
}

impl<'a, 'b> RefusedLoads<'a, 'b> {
    pub fn new(
        rt: &'a HostRuntime,
        name: &'a str,
        lines: u64,
        progress: Option<&'b Progress<'a>>,
    ) -> Self {
        RefusedLoads {
            rt,
            name,
            lines: Cell::new(lines),
            progress,
        }
    }

    fn print_refusal(&self, load: &Act, refusal: Refusal) -> Result<(), AllocError> {
        let Act::Load { slot, bytes, .. } = load else {
            return Ok(());
        };
        let refused = explain_refusal(self.rt.alloc(), bytes.as_slice(), refusal)?;
        if let Some(progress) = self.progress {
            progress.clear();
        }
        let (name, line, number) = (self.name, self.lines.get(), refused.number());
        print_message(
            self.rt,
            &format_args!("{name}:{line}: slot {slot}: {refused} (V{number})"),
        );
        Ok(())
    }
}

impl PlayNotices for RefusedLoads<'_, '_> {
    fn line_begins(&self) {
        self.lines.set(self.lines.get().saturating_add(1));
    }

    fn refused_load(&self, load: &Act, refusal: Refusal) {
        // Without memory there is no message, but the answer still has the refusal's number.
        let _ = self.print_refusal(load, refusal);
    }
}
