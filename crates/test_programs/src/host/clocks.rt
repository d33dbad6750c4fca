//! Clocks that were made up.

use ntp_host::moment_now;
use std::io::{self, ErrorKind};
use std::time::{Clock, Duration};

// A clock whose reading from 1970 is given, and fails where none is; its other reading is of another time.
#[derive(Drop)]
struct MadeUp(Option<Duration>);

impl Clock for MadeUp {
    fn monotonic(&self) -> io::Result<Duration> {
        Ok(Duration::from_secs(1))
    }

    fn since_1970(&self) -> io::Result<Duration> {
        self.0.ok_or(io::Error::from(ErrorKind::Other))
    }
}

/// Prints the moments of a clock that fails, of half a second after 1970 began, of the second at which era 1 begins, and of 2^63
/// seconds, which no clock counts.
pub fn show(rt: &HostRuntime) -> io::Result<()> {
    let readings = [
        None,
        Some(Duration::new(0, 500_000_000)),
        Some(Duration::new(2_085_978_496, 0)),
        Some(Duration::new(1 << 63, 0)),
    ];
    for reading in readings {
        let moment = moment_now(&MadeUp(reading));
        println!(rt; "moment {}:{:016x}", moment.era, moment.stamp.0)?;
    }
    Ok(())
}
