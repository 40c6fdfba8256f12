//! Broken heads and frames by the thousand, and a good client behind each hundred.
use crate::frames::{FIELDS, head_of};
use crate::lab::Lab;
use crate::records::written_by;
use crate::steps::{PLAIN, is_served, opens};
use crate::words::bytes_of;
use std::alloc::Global;
use std::test::Fail;

/// How many rounds there are, of a hundred connections each.
const ROUNDS: u32 = 20;

/// What a connection writes and no more: a head, as it stands with `|` for each end of a line, or the bytes of frames behind a
/// good head.
const BROKEN: &str = "head nonsense||
head |
head GET
head GET /session
head GET /session HTTP/1.1
head GET /session HTTP/1.1|
head GET /session HTTP/1.1|Host
head GET /session HTTP/1.1|Host: x||
head GET /session HTTP/1.1|: x||
head GET /session HTTP/1.1|Host x||
head GET /session HTTP/1.0|FIELDS||
head GET /session HTTP/2.0|FIELDS||
head GET  /session HTTP/1.1|FIELDS||
head GET /session|FIELDS||
head POST /session HTTP/1.1|FIELDS||
head get /session HTTP/1.1|FIELDS||
head GET /nowhere HTTP/1.1|FIELDS||
head GET /session HTTP/1.1|FIELDS|Origin: null||
head GET /session HTTP/1.1|Upgrade: websocket|Connection: Upgrade|Sec-WebSocket-Version: 13|Sec-WebSocket-Key: x||
head GET /session HTTP/1.1|Upgrade: websocket|Connection: close|Sec-WebSocket-Version: 13||
frames
frames 81
frames 81 80
frames 81 80 00 00 00
frames 81 85 00 00 00 00 7b
frames 81 fe
frames 81 fe 00 01 00 00 00 00 7b
frames 81 ff 00 00 00 00 00 00 00 01 00 00 00 00 7b
frames 81 ff 00 00 00 00 01 00 00 01 00 00 00 00
frames 81 ff ff ff ff ff ff ff ff ff 00 00 00 00
frames 81 02 7b 7d
frames 01 81 00 00 00 00 7b
frames 01 81 00 00 00 00 7b 81 81 00 00 00 00 7d
frames 80 81 00 00 00 00 7d
frames 83 80 00 00 00 00
frames 8b 80 00 00 00 00
frames c1 80 00 00 00 00
frames 09 80 00 00 00 00
frames 89 fe 00 7e 00 00 00 00
frames 81 82 00 00 00 00 c3 28
frames 81 81 00 00 00 00 ff
frames 88 81 00 00 00 00 03
frames 88 82 00 00 00 00 03 ed
frames 88 83 00 00 00 00 03 e8 ff
frames 88 80 00 00 00 00 81 80 00 00 00 00";

#[test]
fn a_good_client_is_served_behind_broken_ones(rt: HostRuntime) -> Result<(), Fail> {
    let lab = Lab::new(&rt, PLAIN, "")?;
    run_rounds(&rt, lab)
}

/// Runs the rounds in a lab.
fn run_rounds(rt: &HostRuntime, lab: Lab) -> Result<(), Fail> {
    let mut lab = lab;
    let found = run_each(rt, &mut lab);
    drop(lab);
    found
}

/// Runs each round, and plays the record.
fn run_each(rt: &HostRuntime, lab: &mut Lab) -> Result<(), Fail> {
    let rows = BROKEN.lines().collect::<Vec<&str>>(rt.alloc())?;
    let mut chance = Chance { state: 1 };
    for round in 0..ROUNDS {
        if !is_good_served(rt, lab, &rows, &mut chance)? {
            return Err(Fail::new(format_args!("behind round {round}")));
        }
    }
    written_by(lab, 0)?;
    Ok(())
}

/// Whether a good client is served behind a hundred that are broken.
fn is_good_served(
    rt: &HostRuntime,
    lab: &mut Lab,
    rows: &[&str],
    chance: &mut Chance,
) -> Result<bool, Fail> {
    for count in 0..100u32 {
        let row = rows.get(chance.below(rows.len())).unwrap_or(&"");
        let mut bytes = broken_bytes(rt.alloc(), row)?;
        if count % 2 == 1 {
            change(&mut bytes, chance);
        }
        let place = lab.connect(rt, "")?;
        lab.client(place)?.output().extend_from_slice(&bytes)?;
    }
    let is_open = opens(rt, lab, "good", "/session")?;
    let place = lab.place_of("good")?;
    let is_served = is_served(lab, place)?;
    lab.clients.clear();
    lab.rest()?;
    lab.world.go(11);
    Ok(is_open && is_served)
}

/// The bytes of a row.
fn broken_bytes(alloc: Global, row: &str) -> Result<Vec<u8>, Fail> {
    match row.strip_prefix("head ") {
        Some(head) => {
            let head = head.replace(alloc, "|", "\r\n")?;
            let head = head.replace(alloc, "FIELDS", FIELDS)?;
            Ok(head.as_str().as_bytes().to_vec(alloc)?)
        }
        None => {
            let words = row.strip_prefix("frames").unwrap_or("");
            let mut bytes = head_of(alloc, "/session")?.as_bytes().to_vec(alloc)?;
            bytes.extend_from_slice(&bytes_of(alloc, words)?)?;
            Ok(bytes)
        }
    }
}

/// Changes one byte.
fn change(bytes: &mut Vec<u8>, chance: &mut Chance) {
    let place = chance.below(bytes.len());
    let byte = chance.byte();
    if let Some(there) = bytes.get_mut(place) {
        *there = byte;
    }
}

/// Numbers that look like chance, and are the same in each run.
#[derive(Drop)]
struct Chance {
    state: u64,
}

impl Chance {
    /// The next number.
    fn next(&mut self) -> u64 {
        let mut x = self.state;
        x ^= x << 13;
        x ^= x >> 7;
        x ^= x << 17;
        self.state = x;
        x
    }

    /// A number below a bound, or 0.
    fn below(&mut self, bound: usize) -> usize {
        let found = self.next().checked_rem(bound as u64).unwrap_or(0);
        usize::try_from(found).unwrap_or(0)
    }

    /// A byte.
    fn byte(&mut self) -> u8 {
        u8::try_from(self.next() & 0xff).unwrap_or(0)
    }
}
