//! Who asks.

use crate::host::moment_at;
use crate::script::Script;
use ntp_client::Client;
use ntp_mac::{Algorithm, Key};
use ntp_service::Address;
use std::test::Fail;

/// A client at an address, which asks under a key.
#[derive(Drop)]
pub struct Asker {
    address: Address,
    client: Client,
}

impl Asker {
    /// A client that has asked nothing.
    pub fn new(
        address: Address,
        number: u16,
        algorithm: Algorithm,
        key: &[u8],
    ) -> Result<Asker, Fail> {
        let key = Key::new(algorithm, key)?;
        if number == 0 {
            return Err(Fail::new("a key number is wanted"));
        }
        Ok(Asker {
            address,
            client: Client::new(key, number),
        })
    }

    /// It asks, and takes the reply, where one can be sent. Its query carries the exchange before, where that gave a sample.
    pub fn ask(&mut self, script: &mut Script, at: u64, sends: bool) -> Result<(), Fail> {
        let query = self.client.request(moment_at(at)?);
        let reply = script.datagram(at, self.address, query.octets(), sends)?;
        if let Some(reply) = reply {
            let arrived = moment_at(at.saturating_add(1_000_000))?;
            let _ = self.client.take(reply.octets(), arrived);
        }
        Ok(())
    }

    /// It asks while the process stands still.
    pub fn ask_in_vain(&mut self, script: &mut Script, at: u64) -> Result<(), Fail> {
        let query = self.client.request(moment_at(at)?);
        script.stale(at, self.address, query.octets())
    }
}
