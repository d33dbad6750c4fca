//! A daemon is put together, and serves.
ghost use Rattle.std.specs.Prelude.{◌≡◌, ◌+◌, ◌<◌, ◌^◌, None, false, true, [], IfOk};
ghost use Rattle.std.specs.declared.alloc.Global.{Global};
ghost use Rattle.ntp_reports.specs.Counted.{count_at};
ghost use Rattle.ntp_service.specs.{InTurn.InTurn, Headline.StandsFor};
ghost use Rattle.ntp_port.specs.{Port.failed_calls, Pacing.Paced};
ghost use Rattle.ntp_server.specs.Rounds.{ServesRounds};

use crate::daemon_clock::DaemonClock;
use crate::files::DaemonCommands;
use crate::housekeeping::Housekeeping;
use crate::observers::DaemonObserver;
use crate::parts::{Daemon, DaemonPort, Host, Parts, StartupFacts};
use ntp_port::EachMillisecond;
use ntp_reports::Kind;
use ntp_server::Server;
use ntp_service::Service;
use std::fs::Files;
use std::io::Write;
use std::time::Clock;

/// Why a daemon did not begin to serve.
#[derive(Clone, Copy, Debug, PartialEq, Eq)]
pub enum ServeFault {
    /// There was no memory for what it does beside serving.
    NoMemory,
    /// It could not say that it serves.
    NotSaid,
}

/// A daemon, and what is done beside it.
#[derive(Drop)]
pub struct Assembly<'a, P: DaemonPort, C, S, O, R: Files + Clock, L: Write + Drop> {
    /// The daemon.
    pub daemon: Daemon<P, C, S, O>,
    beside: Housekeeping<'a, R, L>,
}

impl<'a, P, C, S, O, R, L> Assembly<'a, P, C, S, O, R, L>
where
    P: DaemonPort + Drop,
    C: DaemonCommands + Drop,
    S: DaemonClock + Drop,
    O: DaemonObserver + Drop,
    R: Files + Clock,
    L: Write + Drop,
{
    /// Puts a daemon together out of its parts, and says on `out` that it serves. It has no customer yet, and no line of its
    /// commands is applied. It takes the room for what is done beside it from the host's memory: `NoMemory` where that is
    /// refused.
    pub fn begin<N: Write>(
        host: Host<'a, R>,
        parts: Parts<P, C, S, O, L>,
        startup: StartupFacts,
        out: &mut N,
    ) -> Result<Assembly<'a, P, C, S, O, R, L>, ServeFault>
        ensures port { IfOk result (λ assembly. assembly.daemon.port ≡ parts.port) }
        ensures commands { IfOk result (λ assembly. assembly.daemon.commands.source ≡ parts.commands) }
        ensures unasked { IfOk result (λ assembly. assembly.daemon.commands.asked ≡ None) }
        ensures applied { IfOk result (λ assembly. assembly.daemon.applied ≡ 0) }
        ensures reference { IfOk result (λ assembly. assembly.daemon.reference ≡ parts.reference) }
        ensures observer { IfOk result (λ assembly. assembly.daemon.observer ≡ parts.observer) }
        ensures service { IfOk result (λ assembly. StandsFor {A = Global} assembly.daemon.service []) }
    {
        let service = Service::new(host.alloc);
        let Ok(mut beside) = Housekeeping::new(host, parts.log, startup) else {
            return Err(ServeFault::NoMemory);
        };
        if writeln!(out, "serving {}", startup.bound.local).is_err() {
            return Err(ServeFault::NotSaid);
        }
        beside.say_start();
        Ok(Assembly {
            daemon: Server {
                port: parts.port,
                commands: EachMillisecond::new(parts.commands),
                applied: 0,
                reference: parts.reference,
                observer: parts.observer,
                service,
            },
            beside,
        })
    }

    /// Serves for `turns` turns, with all that is done beside it. It cannot fail.
    ///
    /// First it carries out the lines that stand in its commands file; then it makes the rounds of `serve`. Where the
    /// port below `FreshPort` tells its turns, the rounds have these, but those whose datagrams were dropped and counted as
    /// stale, and what it sent is the replies; and so with the commands, as `EachMillisecond` asks for them, with the states of
    /// the clock and with the observer: each as far as it tells.
    pub fn serve(&mut self, turns: u64)
        requires failures { failed_calls self.old.daemon.port.counts + turns < 2 ^ 64 }
        ensures serves { ServesRounds self.old.daemon self.new.daemon
            (record {
              port = λ p. P.told p.port;
              counts = λ p. p.counts;
              looked = Paced C.looked;
              asked = S.asked;
              tended = S.tended;
              heard = O.heard;
            })
            (InTurn (λ _ _ _. Unit {0}) self.old.beside self.new.beside) false true turns }
        // Behind the last turn it is known how many receives have failed, and how many stale datagrams were dropped.
        ensures receives { 0 < turns → self.new.beside.seen.failed ≡ count_at (O.counted self.new.daemon.observer) Kind.NothingReceived }
        ensures stale { 0 < turns → self.new.beside.seen.stale ≡ self.new.daemon.port.counts.dropped }
    {
        self.daemon.serve(turns, &mut self.beside);
    }
}
