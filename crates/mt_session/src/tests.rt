use super::*;
use mt_outside::{Alteration, MemorySink, MemoryWire, Slot, Wire};
use mt_tree::Buffer;
use std::alloc::Global;
use std::test::Fail;

const LOADED: &str =
    "> load 1 /hop/hello\nmessage 1.1 request 63\nGET /hop/hello HTTP/1.1\r\nHost: localhost\r\nConnection: close\r\n\r\n\n";

const SERVED: &str =
    "> serve 1.1\nmessage 1.1 reply 122\nHTTP/1.1 200 OK\r\nContent-Type: text/html; charset=utf-8\r\nContent-Length: 24\r\nConnection: close\r\n\r\n<!DOCTYPE html><p>hi</p>\n";

// Plays a schedule over a wire that gives pieces of 7 bytes. None where there is nothing to play.
fn play_over(
    alloc: Global,
    schedule: &[u8],
    alterations: Vec<Alteration>,
    out: &mut MemorySink,
) -> Option<Played> {
    let small = match read_small(alloc, b"service hello() { return <p>hi</p>; }") {
        Ok(small) => small,
        Err(_refusal) => return None,
    };
    let commands = match read_small_schedule(alloc, schedule) {
        Ok(commands) => commands,
        Err(_refusal) => return None,
    };
    let mut wire = MemoryWire::new(alloc, alterations, Vec::new(alloc), 7);
    match wire.begin(false) {
        Ok(()) => Some(play_small(alloc, &small, &commands, &mut wire, out)),
        Err(_fault) => None,
    }
}

#[test]
fn each_side_reads_what_the_wire_gives(rt: HostRuntime) -> Result<(), Fail> {
    let alloc = rt.alloc();
    let one_page = "load 1 /hop/hello\nserve 1.1\ndeliver 1.1\n";
    // The byte that the wire gives in place of one of the reply, and the last lines.
    let cases = [
        (
            None,
            "> deliver 1.1\npage 1 2\nelement 1 0 p\ntext 2 1 \"hi\"\nend 3\n",
        ),
        (
            Some((116, b'b')),
            "> deliver 1.1\npage 1 2\nelement 1 0 p\ntext 2 1 \"bi\"\nend 3\n",
        ),
        (Some((0, b'X')), "> deliver 1.1\nunreadable\nend 3\n"),
    ];
    for (change, delivered) in cases {
        let mut alterations = Vec::new(alloc);
        if let Some((offset, byte)) = change {
            let slot = Slot {
                client: 1,
                message: 1,
                reply: true,
            };
            alterations.push(Alteration { slot, offset, byte })?;
        }
        let mut out = MemorySink::new(alloc, Vec::new(alloc), 50);
        let played = play_over(alloc, one_page.as_bytes(), alterations, &mut out);
        assert!(rt; matches!(played, Some(Played::Done)));
        let expected = format!(in alloc; "{LOADED}{SERVED}{delivered}")?;
        assert_eq!(rt; out.bytes(), expected.as_bytes());
    }
    Ok(())
}

#[test]
fn what_is_not_there_is_skipped(rt: HostRuntime) -> Result<(), Fail> {
    let alloc = rt.alloc();
    let schedule =
        "serve 9.1\nload 1 /hop/nobody\nserve 1.1\ndeliver 1.1\nserve 1.1\ndeliver 2.1\n";
    let expected =
        "> serve 9.1\nskip no-client\n> load 1 /hop/nobody\nmessage 1.1 request 64\nGET /hop/nobody HTTP/1.1\r\nHost: localhost\r\nConnection: close\r\n\r\n\n> serve 1.1\nmessage 1.1 reply 121\nHTTP/1.1 404 Not Found\r\nContent-Type: text/plain; charset=utf-8\r\nContent-Length: 15\r\nConnection: close\r\n\r\nno such service\n> deliver 1.1\nfailed 404 \"no such service\"\n> serve 1.1\nskip no-message\n> deliver 2.1\nskip no-client\nend 6\n";
    let mut out = MemorySink::new(alloc, Vec::new(alloc), 50);
    let played = play_over(alloc, schedule.as_bytes(), Vec::new(alloc), &mut out);
    assert!(rt; matches!(played, Some(Played::Done)));
    assert_eq!(rt; out.bytes(), expected.as_bytes());
    Ok(())
}

// A session and a client have no place for a copy of what was sent.
#[test]
fn a_session_keeps_no_message(rt: HostRuntime) {
    let Session { alloc, parties } = Session::new(rt.alloc());
    assert!(rt; parties.is_empty());
    let Party {
        number,
        pages,
        standings,
    } = Party {
        number: 1,
        pages: 0,
        standings: Buffer::new(alloc),
    };
    assert_eq!(rt; (number, pages), (1, 0));
    assert!(rt; standings.items().is_empty());
}
