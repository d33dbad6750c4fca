//! A port to which nothing comes. It tells nothing but how often its calls fail.
ghost use Rattle.std.specs.Prelude.{◌<◌, ◌^◌};
ghost use Rattle.ntp_port.specs.Port.{failed_calls};

use ntp_packet::Moment;
use ntp_port::{DatagramRoom, Port, PortCounts, PortFault, TimedPort};
use ntp_service::{Address, Arrival};
use test_support::moment;

/// A port to which nothing comes: its first waits end with none, and each other call fails.
#[derive(Drop)]
pub(crate) struct FailingPort {
    waits: u8,
    counts: PortCounts,
    ghost few: { failed_calls counts < 2 ^ 64 },
}

impl FailingPort {
    /// A port whose first `waits` waits end with nothing.
    pub(crate) fn new(waits: u8) -> FailingPort {
        FailingPort {
            waits,
            counts: PortCounts::NONE,
        }
    }
}

impl Port for FailingPort {
    ghost counts = { λ p. p.counts };

    fn receive(&mut self, _datagram: &mut DatagramRoom) -> Result<Arrival, PortFault> {
        self.counts.failed_receives += 1;
        Err(PortFault::Receive)
    }

    fn now(&mut self) -> Moment {
        moment(0)
    }

    fn send(&mut self, _address: Address, _port: u16, _reply: &[u8]) -> Result<(), PortFault> {
        self.counts.failed_sends += 1;
        Err(PortFault::Send)
    }

    fn failures(&self) -> u64 {
        self.counts.failed_receives + self.counts.failed_sends
    }
}

impl TimedPort for FailingPort {
    fn receive_in_time(
        &mut self,
        _datagram: &mut DatagramRoom,
    ) -> Option<Result<Arrival, PortFault>> {
        if self.waits > 0 {
            self.waits -= 1;
            self.counts.idle_waits = self.counts.idle_waits.saturating_add(1);
            return None;
        }
        self.counts.failed_receives += 1;
        Some(Err(PortFault::Receive))
    }
}
