//! Writes the rules by which nftables polices the door.

use crate::commands_file::Loaded;
use crate::desk::{Clerk, Stop};
use ntp_clerk::Dotted;
use ntp_query::Server;
use ntp_service::Address;
use std::alloc::{AllocError, Global};
use std::fmt::Write;
use std::num::NonZero;

/// An address at which the server is asked, and the port, if it is not that of the configuration; nothing where the words name none.
pub type Place = Option<(Address, Option<u16>)>;

/// Prints the rules, as `nft -f` takes them: `rate` datagrams of each customer pass in a second, and twice as many at once.
pub fn print_door(clerk: &Clerk<'_>, place: Place, rate: NonZero<u16>) -> Result<(), Stop> {
    let (server, loaded) = (server_for(clerk, place)?, clerk.load()?);
    let rules = rules(clerk.desk.alloc(), server, rate.get(), &loaded)?;
    clerk.desk.print(rules.as_str())
}

// Returns where the rules apply: where the words say it, else where labntpd listens, or else where customers ask.
fn server_for(clerk: &Clerk<'_>, place: Place) -> Result<Server, Stop> {
    match (place, clerk.listening().or(clerk.server())) {
        (Some((address, port)), _) => Ok(Server {
            address,
            port: port.unwrap_or(clerk.port()),
        }),
        (None, Some(server)) => Ok(server),
        (None, None) => {
            let why = "`listen` and `served_as` name no address: --address ADDRESS is wanted";
            Err(clerk.desk.refusal_at(clerk.config, why))
        }
    }
}

// Returns the rules for the datagrams to a server. Who was revoked is a customer too, since it gets DENY.
fn rules(alloc: Global, server: Server, rate: u16, loaded: &Loaded) -> Result<String, AllocError> {
    let customers = loaded.service.addresses()?;
    let (address, port, burst) = (Dotted(server.address), server.port, 2 * u32::from(rate));
    let table = format!(in alloc; "table inet labntpd-{address}-{port}")?;
    let mut text = format!(in alloc;
        "\
#!/usr/sbin/nft -f
# Written by `labntpctl door`, for `nft -f`: it takes the place of what was loaded for this address and port.
# Behind `counter`, `nft list {table}` shows how many datagrams were dropped.

{table}
delete {table}

{table} {{
    set customers {{
        type ipv4_addr
"
    )?;
    if !customers.is_empty() {
        text.push_str("        elements = {\n")?;
        for customer in customers.iter() {
            writeln!(text, "            {},", Dotted(*customer))?;
        }
        text.push_str("        }\n")?;
    }
    write!(
        text,
        "    }}

    # The customers that were heard in the last two minutes.
    set sources {{
        type ipv4_addr
        size 65535
        flags dynamic,timeout
        timeout 2m
    }}

    chain queries {{
        ip saddr != @customers counter drop
        update @sources {{ ip saddr limit rate over {rate}/second burst {burst} packets }} counter drop
    }}

    chain door {{
        # Before connection tracking, so that a flood costs little.
        type filter hook prerouting priority raw; policy accept;
        # The server's own replies pass here too where both ends are on this host.
        ip daddr {address} udp dport {port} ip saddr != {address} jump queries
    }}
}}
"
    )?;
    Ok(text)
}
