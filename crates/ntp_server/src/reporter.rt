//! Who is shown a server while it serves.
ghost use Rattle.std.specs.Prelude.{Option};
ghost use Rattle.ntp_packet.specs.declared.moment.Moment.{Moment};

use ntp_packet::Moment;

/// Is shown a server `S` as it is, between its turns and while nothing comes.
///
/// It has the server behind a shared reference, and so can change nothing of what the server does.
///
/// It may say how it goes on when it is shown a server, and what it knows of the one that it was shown last.
pub trait Reporter<S> {
    // How it goes on when it is shown a server with this, as far as it says that.
    ghost shown: { Self → Self → Option Moment → Type 0 } = { λ _ _ _. Unit {0} };

    // That what it knows is of a server as it is, as far as it says that.
    ghost knows: { Self → S → Type 0 } = { λ _ _. Unit {0} };

    /// Shows the server. Called after each turn (with the receipt, or `None` if receiving failed) and after each wait that
    /// ended with nothing (with `None`).
    fn report(&mut self, server: &S, receipt: Option<Moment>)
        ensures shown { shown self.old self.new receipt }
        ensures known { knows self.new server.now };
}

/// A reporter that does nothing.
#[derive(Clone, Copy, Debug, PartialEq, Eq)]
pub struct NoReports;

impl<S> Reporter<S> for NoReports {
    fn report(&mut self, _server: &S, _receipt: Option<Moment>) {}
}
