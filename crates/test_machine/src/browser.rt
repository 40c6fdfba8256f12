//! Ids and their texts, and what a browser says and tells as it starts.
use bidi_browser::{Browser, IdKind, Occurrence, Top, id_number, id_text};
use bidi_messages::{EventData, EventName, Payload, event_text};
use std::alloc::{AllocError, Global};
use std::test::Fail;
use testing::rows::{Asked, check_rows};

struct Browsers;

impl Asked for Browsers {
    fn found(alloc: Global, word: &str, text: &str) -> Result<String, Fail> {
        match word {
            "number" => number(alloc, text),
            "live" => live(alloc, text),
            "top" => top(alloc, text),
            "user" => user(alloc, text),
            "events" => events(alloc),
            _ => id(alloc, kind_of(word).ok_or("no such word")?, text),
        }
    }
}

// ---- ids

/// Kinds, with the number of a session and a number; the id is known again.
const IDS: &str = "
Session 0 1 -> 00000000-0001-8000-8000-000000000001
Context 0 1 -> 00000000-0002-8000-8000-000000000001
Realm 0 1 -> 00000000-0003-8000-8000-000000000001
Navigation 0 1 -> 00000000-0004-8000-8000-000000000001
Subscription 1 1 -> 00000001-0005-8000-8000-000000000001
Handle 0 1 -> 00000000-0006-8000-8000-000000000001
Window 0 1 -> 00000000-0007-8000-8000-000000000001
UserContext 0 1 -> 00000000-0008-8000-8000-000000000001
Handle 7 1 -> 00000000-0006-8000-8000-000000000001
Context 3 2 -> 00000000-0002-8000-8000-000000000002
Handle 0 1001 -> 00000000-0006-8000-8000-0000000003e9
Subscription 4294967295 281474976710655 -> ffffffff-0005-8000-8000-ffffffffffff
";

#[test]
fn each_kind_has_ids_of_its_own(rt: HostRuntime) -> Result<(), Fail> {
    check_rows::<Browsers>(rt.alloc(), IDS)
}

fn kind_of(word: &str) -> Option<IdKind> {
    match word {
        "Session" => Some(IdKind::Session),
        "Context" => Some(IdKind::Context),
        "Realm" => Some(IdKind::Realm),
        "Navigation" => Some(IdKind::Navigation),
        "Subscription" => Some(IdKind::Subscription),
        "Handle" => Some(IdKind::Handle),
        "Window" => Some(IdKind::Window),
        "UserContext" => Some(IdKind::UserContext),
        _ => None,
    }
}

fn id(alloc: Global, kind: IdKind, text: &str) -> Result<String, Fail> {
    let (session, number) = text.split_once(' ').ok_or("no number")?;
    let session = session.parse()?;
    let number = number.parse::<u64>()?;
    if number >= 1 << 48 {
        return Err(Fail::from("a number of more than 48 bits"));
    }
    let id = id_text(alloc, kind, session, number)?;
    if id_number(id.as_str(), kind, session) != Some(number) {
        return Err(Fail::from("the id is not known again"));
    }
    Ok(id)
}

/// Kinds, with the number of a session and a text, and the number of which the text is the id.
const NUMBERS: &str = "
number Handle 0 00000000-0006-8000-8000-0000000003e9 -> Some(1001)
number Handle 0 00000000-0006-8000-8000-0000000003ea -> Some(1002)
number Handle 0 00000000-0006-8000-8000-000000000000 -> Some(0)
number Handle 0 00000000-0006-8000-8000-ffffffffffff -> Some(281474976710655)
number Handle 7 00000000-0006-8000-8000-0000000003e9 -> Some(1001)
number Subscription 7 00000007-0005-8000-8000-0000000003e9 -> Some(1001)
number Subscription 8 00000007-0005-8000-8000-0000000003e9 -> None
an upper-case letter | number Handle 0 00000000-0006-8000-8000-0000000003E9 -> None
a session | number Handle 0 00000001-0006-8000-8000-0000000003e9 -> None
another kind | number Handle 0 00000000-0002-8000-8000-0000000003e9 -> None
another version | number Handle 0 00000000-0006-4000-8000-0000000003e9 -> None
a bit outside the number | number Handle 0 00000000-0006-8000-8001-0000000003e9 -> None
a blank in front | number Handle 0  00000000-0006-8000-8000-0000000003e9 -> None
more behind | number Handle 0 00000000-0006-8000-8000-0000000003e90 -> None
no hyphens | number Handle 0 000000000006800080000000000003e9 -> None
braces | number Handle 0 {00000000-0006-8000-8000-0000000003e9} -> None
a name | number Handle 0 urn:uuid:00000000-0006-8000-8000-0000000003e9 -> None
no hexadecimal digit | number Handle 0 00000000-0006-8000-8000-0000000003g9 -> None
no text | number Handle 0  -> None
the word that is no id | number UserContext 0 default -> None
";

#[test]
fn a_number_is_read_in_its_exact_id_alone(rt: HostRuntime) -> Result<(), Fail> {
    check_rows::<Browsers>(rt.alloc(), NUMBERS)
}

fn number(alloc: Global, text: &str) -> Result<String, Fail> {
    let (kind, rest) = text.split_once(' ').ok_or("no kind")?;
    let (session, id) = rest.split_once(' ').ok_or("no session")?;
    let kind = kind_of(kind).ok_or("no such kind")?;
    let number = id_number(id, kind, session.parse()?);
    Ok(format!(in alloc; "{number:?}")?)
}

// ---- a browser as it starts

/// Which numbers of contexts are alive, the number of the top of an id, whether an id is that of a live user context, with its
/// number, and the events that tell of all that stands, each behind the numbers of its context, its top and their user context.
const START: &str = r#"
live 0 -> false
live 1 -> true
live 2 -> false
top 00000000-0002-8000-8000-000000000001 -> Some(1)
top 00000000-0002-8000-8000-000000000002 -> None
top 00000000-0002-8000-8000-00000000000A -> None
top 00000000-0003-8000-8000-000000000001 -> None
top  -> None
user default -> true Some(0)
user Default -> false None
user 00000000-0008-8000-8000-000000000001 -> false None
the number of the default one has no id | user 00000000-0008-8000-8000-000000000000 -> false None
user  -> false None
the context before its realm | events  -> [1 1 0 {"method":"browsingContext.contextCreated","params":{"children":null,"clientWindow":"00000000-0007-8000-8000-000000000001","context":"00000000-0002-8000-8000-000000000001","originalOpener":null,"parent":null,"url":"about:blank","userContext":"default"},"type":"event"}][1 1 0 {"method":"script.realmCreated","params":{"context":"00000000-0002-8000-8000-000000000001","origin":"null","realm":"00000000-0003-8000-8000-000000000001","type":"window"},"type":"event"}]
"#;

#[test]
fn one_context_is_alive_and_told_with_its_realm(rt: HostRuntime) -> Result<(), Fail> {
    check_rows::<Browsers>(rt.alloc(), START)
}

fn live(alloc: Global, text: &str) -> Result<String, Fail> {
    let number = text.parse()?;
    let is_live = Browser::new(alloc)?.is_live(number);
    Ok(is_live.to_string(alloc)?)
}

fn top(alloc: Global, text: &str) -> Result<String, Fail> {
    let top = Browser::new(alloc)?.top_of(text);
    Ok(format!(in alloc; "{top:?}")?)
}

fn user(alloc: Global, text: &str) -> Result<String, Fail> {
    let browser = Browser::new(alloc)?;
    let is_live = browser.is_live_user(text);
    let number = browser.user_named(text);
    Ok(format!(in alloc; "{is_live} {number:?}")?)
}

fn events(alloc: Global) -> Result<String, Fail> {
    let mut told = String::new(alloc);
    for occurrence in Browser::new(alloc)?.tree_events()? {
        push_told(&mut told, parts_of(alloc, occurrence))?;
    }
    Ok(told)
}

/// The number of the context, its top, and the text of the event.
fn parts_of(alloc: Global, occurrence: Occurrence) -> (u64, Top, Result<String, AllocError>)
    requires { ⟦<EventData as Payload<EventName>>⟧.payload.well occurrence.event }
{
    let text = event_text(alloc, &occurrence.event);
    (occurrence.context, occurrence.top, text)
}

fn push_told(
    told: &mut String,
    (context, top, text): (u64, Top, Result<String, AllocError>),
) -> Result<(), Fail> {
    let text = text?;
    write!(told, "[{context} {} {} {text}]", top.number, top.user)?;
    Ok(())
}
