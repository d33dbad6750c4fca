//! What no contract says of looks at a commands file: that they give its lines where there is memory.

use ntp_host::{CommandsFault, CommandsFile, FileState, HostClocks};
use ntp_port::CommandsSource;
use std::test::Fail;
use test_support::MemoryFile;

// That it is found with so many octets.
fn found(length: u64) -> Option<FileState> {
    Some(FileState {
        device: 1,
        node: 2,
        length,
        seconds: 0,
        nanos: 0,
    })
}

#[test]
fn looks_at_a_commands_file_give_its_lines_where_there_is_memory(
    rt: HostRuntime,
) -> Result<(), Fail> {
    let octets = b"one\ntwo\nthr".to_vec(rt.alloc())?;
    let states = [
        found(4),
        found(4),
        found(6),
        None,
        found(11),
        found(11),
        found(3),
    ];
    let file = MemoryFile::new(octets, states.to_vec(rt.alloc())?);
    let clocks = HostClocks::new();
    let mut commands = CommandsFile::over(file, &clocks)?;
    let given = [Some("one\n"), None, None, Some("two\n"), None, None, None];
    for octets in given {
        let lines = commands.look(rt.alloc(), None);
        assert!(rt; lines.as_deref() == octets.map(str::as_bytes));
    }
    assert!(rt; matches!(commands.fault(), Some(CommandsFault::Shorter)));
    Ok(())
}
