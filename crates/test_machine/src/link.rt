//! Both ends over schedules: what becomes of each command, in whatever order texts are carried and links are cut.
ghost use Rattle.std.specs.Prelude.{IfOk, OnOk};
ghost use Rattle.bidi_ledger.specs.Steps.{AreWell, IsWell};

use bidi_link::{Fate, Ledger, PairStep, pair};
use bidi_messages::{ErrorCode, Method, Named, ResultData, data_of};
use bidi_tree::JsUint;
use std::alloc::{AllocError, Global};
use std::process::Abort;
use std::test::Fail;
use testing::texts::tree_of;

/// What a schedule does to one of its links.
#[derive(Clone, Copy, Debug, PartialEq, Eq)]
enum Move {
    Send,
    Up,
    Down,
    Cut,
}

/// An order of seven moves of one link: the digits of the number to the base of 4, the last digit first.
///
/// There are 16,384 orders. In 630 of them two commands are sent, two texts are carried up and two down, and there is
/// one cut.
type Order = u32;

/// Of the orders of one link in which all is sent, carried and cut, each meets each of its own turns for the other link:
/// 4,410 schedules. Whose move it is, and whether a cut is left out, is told by the same numbers.
#[test]
fn each_command_has_one_fate_over_every_schedule(rt: HostRuntime) -> Result<(), Fail> {
    let mut schedules: u32 = 0;
    for order in 0..16_384u32 {
        if is_whole(order) {
            for turn in 0..7u32 {
                check_schedule(&rt, rt.alloc(), order, turn)?;
                schedules = schedules.saturating_add(1);
            }
        }
    }
    assert_eq!(rt; schedules, 4410);
    Ok(())
}

/// The move at a place of an order.
fn move_at(order: Order, place: u32) -> Move {
    match order.checked_shr(place.saturating_mul(2)).unwrap_or(0) % 4 {
        0 => Move::Send,
        1 => Move::Up,
        2 => Move::Down,
        _ => Move::Cut,
    }
}

/// Whether an order sends two commands, carries two texts up and two down, and cuts once.
fn is_whole(order: Order) -> bool {
    is_times(order, Move::Send, 2) && is_times(order, Move::Up, 2) && is_times(order, Move::Down, 2)
}

/// Whether a move stands in an order so many times.
fn is_times(order: Order, one: Move, times: usize) -> bool {
    (0..7u32)
        .filter(|place| move_at(order, *place) == one)
        .count()
        == times
}

/// The moves of a schedule, each with its link: an order for link 1, and the same from another move on for link 2.
fn moves(alloc: Global, order: Order, turn: u32) -> Result<Vec<(u64, Move)>, Fail> {
    let mut all = Vec::new(alloc);
    let mut first: u32 = 0;
    let mut second: u32 = 0;
    for place in 0..14u32 {
        let is_set = order.checked_shr(place).unwrap_or(0) % 2 == 1;
        if first < 7 && (is_set || second >= 7) {
            all.push((1, move_at(order, first)))?;
            first = first.saturating_add(1);
        } else {
            all.push((2, move_at(order, second.saturating_add(turn) % 7)))?;
            second = second.saturating_add(1);
        }
    }
    Ok(all)
}

/// Plays a schedule, and compares its ledger with what is counted.
fn check_schedule(rt: &impl Abort, alloc: Global, order: Order, turn: u32) -> Result<(), Fail> {
    let cuts = u64::from(order.saturating_add(turn) % 4);
    let mut played = Vec::new(alloc);
    for (link, one) in moves(alloc, order, turn)? {
        // Of every four schedules one has both cuts, two have one, and one has none.
        if one != Move::Cut || (cuts != link && cuts != 3) {
            played.push((link, one))?;
        }
    }
    let found = found(alloc, pair(alloc, steps(alloc, &played)?)?)?;
    let wanted = wanted(alloc, &played)?;
    assert_eq!(rt;
        found.as_str(),
        wanted.as_str(),
        "order {order} by turn {turn}"
    );
    Ok(())
}

/// The steps of these moves, after two links are opened. Link 1 asks for the status; what link 2 asks is refused.
fn steps(alloc: Global, moves: &[(u64, Move)]) -> Result<Vec<PairStep>, Fail>
    ensures { IfOk result (λ all. AreWell all.items) }
{
    let mut all = Vec::new(alloc);
    add(&mut all, opening(alloc, 1)?)?;
    add(&mut all, opening(alloc, 2)?)?;
    for (link, one) in moves {
        add(&mut all, step(alloc, *link, *one)?)?;
    }
    Ok(all)
}

fn add(steps: &mut Vec<PairStep>, step: PairStep) -> Result<(), AllocError>
    requires before { AreWell steps.old.items }
    requires well { IsWell step }
    ensures { OnOk result (AreWell steps.new.items) }
{
    steps.push(step)?;
    Ok(())
}

fn opening(alloc: Global, link: u64) -> Result<PairStep, Fail>
    ensures { IfOk result IsWell }
{
    let resource = String::from_str(alloc, "/session")?;
    Ok(PairStep::Open(number(link)?, resource))
}

fn step(alloc: Global, link: u64, one: Move) -> Result<PairStep, Fail>
    ensures { IfOk result IsWell }
{
    let number = number(link)?;
    match one {
        Move::Send => sending(alloc, number),
        Move::Up => Ok(PairStep::Up(number)),
        Move::Down => Ok(PairStep::Down(number)),
        Move::Cut => Ok(PairStep::Cut(number)),
    }
}

fn sending(alloc: Global, link: JsUint) -> Result<PairStep, Fail>
    ensures { IfOk result IsWell }
{
    let method = if link.value == 1 {
        Method::SessionStatus
    } else {
        Method::SessionEnd
    };
    let params = tree_of(alloc, "{}")?;
    Ok(PairStep::Send(link, data_of(alloc, method, &params)?))
}

fn number(link: u64) -> Result<JsUint, Fail> {
    Ok(JsUint::new(link).ok_or("no js-uint")?)
}

/// What was counted of one link.
#[derive(Drop)]
struct Counted {
    sent: u64,
    up: u64,
    down: u64,
    is_cut: bool,
}

impl Counted {
    /// Counts one more move. On a link that is cut, or where it finds nothing to carry, a move does nothing.
    fn count(&mut self, one: Move) {
        if !self.is_cut {
            match one {
                Move::Send => self.sent = self.sent.saturating_add(1),
                Move::Up if self.up < self.sent => self.up = self.up.saturating_add(1),
                Move::Down if self.down < self.up => self.down = self.down.saturating_add(1),
                Move::Cut => self.is_cut = true,
                _ => {}
            }
        }
    }

    /// What has become of the command with that id. Replies come down in the order of the commands.
    fn fate(&self, id: u64, reply: &'static str) -> &'static str {
        if id <= self.down {
            reply
        } else if self.is_cut {
            "lost"
        } else {
            "waiting"
        }
    }
}

/// What the ledger is to tell, by counting alone.
fn wanted(alloc: Global, moves: &[(u64, Move)]) -> Result<String, Fail> {
    let mut told = String::new(alloc);
    push_wanted(&mut told, moves, 1, "session.status", "ready")?;
    push_wanted(&mut told, moves, 2, "session.end", "without a session")?;
    Ok(told)
}

fn push_wanted(
    told: &mut String,
    moves: &[(u64, Move)],
    link: u64,
    method: &'static str,
    reply: &'static str,
) -> Result<(), Fail> {
    let mut counted = Counted {
        sent: 0,
        up: 0,
        down: 0,
        is_cut: false,
    };
    for (at, one) in moves {
        if *at == link {
            counted.count(*one);
        }
    }
    write!(told, "link {link}, 0 events, 0 unsent\n")?;
    for place in 0..counted.sent {
        let id = place.saturating_add(1);
        write!(told, "{id} {method} {}\n", counted.fate(id, reply))?;
    }
    Ok(())
}

/// What the ledger tells.
fn found(alloc: Global, ledger: Ledger) -> Result<String, Fail> {
    let mut told = String::new(alloc);
    for account in &ledger.accounts {
        let (events, unsent) = (account.events.len(), account.unsent);
        write!(
            told,
            "link {}, {events} events, {unsent} unsent\n",
            account.link.value
        )?;
        for entry in &account.commands {
            let (id, method) = (entry.id.value, entry.method.name());
            write!(told, "{id} {method} {}\n", fate(&entry.fate))?;
        }
    }
    Ok(told)
}

fn fate(fate: &Fate) -> &'static str {
    match fate {
        Fate::Answered(data) => answer(data),
        Fate::Refused(ErrorCode::InvalidSessionId) => "without a session",
        Fate::Refused(_) => "refused",
        Fate::Lost => "lost",
        Fate::Waiting => "waiting",
    }
}

fn answer(data: &ResultData) -> &'static str {
    match data {
        ResultData::SessionStatus(status) if status.ready => "ready",
        _ => "answered",
    }
}
