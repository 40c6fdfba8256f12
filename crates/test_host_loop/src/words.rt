//! The words of a scene.
use std::alloc::{AllocError, Global};
use std::test::Fail;
use testing::repeats::repeated;

/// The letter of each kind of id, and how such an id begins.
const KINDS: [(&str, &str); 6] = [
    ("s", "00000000-0001"),
    ("c", "00000000-0002"),
    ("r", "00000000-0003"),
    ("n", "00000000-0004"),
    ("u", "00000001-0005"),
    ("v", "00000002-0005"),
];

/// The words that stand for a part of a text.
const WORDS: [(&str, &str); 5] = [
    (r"\r", "\r"),
    (
        "STATUS",
        r#"{"id":1,"method":"session.status","params":{}}"#,
    ),
    (
        "READY",
        r#"{"id":1,"result":{"message":"ready","ready":true},"type":"success"}"#,
    ),
    (
        "REFUSED",
        r#"{"error":"invalid argument","id":null,"message":"invalid argument","type":"error"}"#,
    ),
    (
        "CAPABILITIES",
        r#"{"acceptInsecureCerts":false,"browserName":"memory-browser","browserVersion":"1.0","platformName":"none","setWindowRect":false,"userAgent":"memory-browser/1.0"}"#,
    ),
];

/// The scene with what its words stand for: `@s1` is the id of the first session, and so `@c1` that of a context, `@n1` of a navigation, `@r1` of a
/// realm, `@u1` of a subscription of the first session and `@v1` of one of the second. What comes many times stands once.
pub fn spelled_out(alloc: Global, scene: &str) -> Result<String, Fail> {
    let mut scene = repeated(alloc, scene)?;
    for (word, text) in WORDS {
        scene = scene.replace(alloc, word, text)?;
    }
    for (letter, kind) in KINDS {
        for number in 1..=9u32 {
            let word = format!(in alloc; "@{letter}{number}")?;
            let id = format!(in alloc; "{kind}-8000-8000-{number:012x}")?;
            scene = scene.replace(alloc, word.as_str(), id.as_str())?;
        }
    }
    Ok(scene)
}

/// The step with its long texts: `‹1000000 x›` stands for so many letters.
pub fn long_text(alloc: Global, step: &str) -> Result<String, Fail> {
    if !step.contains("‹") {
        return Ok(String::from_str(alloc, step)?);
    }
    let step = step.replace(alloc, "‹", "«")?;
    let step = step.replace(alloc, "›", "»")?;
    Ok(repeated(alloc, step.as_str())?)
}

/// The text, in which `\n` stands for a line feed.
pub fn with_feeds(alloc: Global, text: &str) -> Result<String, AllocError> {
    text.replace(alloc, "\\n", "\n")
}

/// The bytes that words of two digits stand for.
pub fn bytes_of(alloc: Global, words: &str) -> Result<Vec<u8>, Fail> {
    let mut bytes = Vec::new(alloc);
    for word in words.split_whitespace() {
        bytes.push(u8::from_str_radix(word, 16)?)?;
    }
    Ok(bytes)
}
