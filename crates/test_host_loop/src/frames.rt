//! Frames and heads, as a client writes and reads them.
use std::alloc::{AllocError, Global};
use std::str::from_utf8;
use std::test::Fail;

/// The header lines of a request that asks for a WebSocket.
pub const FIELDS: &str =
    "Host: 127.0.0.1\r\nUpgrade: websocket\r\nConnection: Upgrade\r\nSec-WebSocket-Key: dGhlIHNhbXBsZSBub25jZQ==\r\nSec-WebSocket-Version: 13";

/// The head that asks for a WebSocket at a resource.
pub fn head_of(alloc: Global, resource: &str) -> Result<String, AllocError> {
    format!(in alloc; "GET {resource} HTTP/1.1\r\n{FIELDS}\r\n\r\n")
}

/// The first byte of the frame of a text.
pub const TEXT: u8 = 0x81;

/// The first byte of a close frame.
pub const CLOSE: u8 = 0x88;

/// Appends a frame behind a key of zeros.
pub fn push_frame(bytes: &mut Vec<u8>, first: u8, payload: &[u8]) -> Result<(), AllocError> {
    bytes.push(first)?;
    push_length(bytes, payload.len())?;
    bytes.extend_from_slice(b"\x00\x00\x00\x00")?;
    bytes.extend_from_slice(payload)
}

/// Appends the length of a frame behind a key.
fn push_length(bytes: &mut Vec<u8>, length: usize) -> Result<(), AllocError> {
    if length < 126 {
        bytes.push(0x80 | u8::try_from(length).unwrap_or(0))?;
        return Ok(());
    }
    match u16::try_from(length) {
        Ok(length) => {
            bytes.push(0xfe)?;
            bytes.extend_from_slice(&length.to_be_bytes())
        }
        Err(_) => {
            bytes.push(0xff)?;
            bytes.extend_from_slice(&(length as u64).to_be_bytes())
        }
    }
}

/// A frame of a server, and how many bytes it has in all.
#[derive(Drop)]
pub struct Frame<'a> {
    first: u8,
    payload: &'a [u8],
    pub length: usize,
}

/// What a frame of a server tells.
#[derive(Drop)]
pub enum Told {
    Text(String),
    Close(Closed),
    Other,
}

/// How a connection was closed.
#[derive(Clone, Copy, PartialEq, Eq)]
pub struct Closed {
    pub code: u16,
    pub has_reason: bool,
}

impl Frame<'_> {
    /// What the frame tells.
    pub fn told(&self, alloc: Global) -> Result<Told, Fail> {
        match self.first {
            TEXT => {
                let text = from_utf8(self.payload)?;
                Ok(Told::Text(String::from_str(alloc, text)?))
            }
            CLOSE => Ok(Told::Close(closed_by(self.payload))),
            _ => Ok(Told::Other),
        }
    }
}

/// What a close frame says. One without a code stands for 1005.
fn closed_by(payload: &[u8]) -> Closed {
    match payload.split_first_chunk::<2>() {
        Some((code, reason)) => Closed {
            code: u16::from_be_bytes(*code),
            has_reason: !reason.is_empty(),
        },
        None => Closed {
            code: 1005,
            has_reason: false,
        },
    }
}

/// The frame at the front of what a client read, if it is whole.
pub fn frame_in(bytes: &[u8]) -> Option<Frame<'_>> {
    let (first, rest) = bytes.split_first()?;
    let (length, rest) = length_in(rest)?;
    let (payload, rest) = rest.split_at_checked(length)?;
    Some(Frame {
        first: *first,
        payload,
        length: bytes.len().saturating_sub(rest.len()),
    })
}

/// The length of a frame without a key, and what stands behind it.
fn length_in(bytes: &[u8]) -> Option<(usize, &[u8])> {
    let (short, rest) = bytes.split_first()?;
    match *short {
        126 => {
            let (length, rest) = rest.split_first_chunk::<2>()?;
            Some((usize::from(u16::from_be_bytes(*length)), rest))
        }
        127 => {
            let (length, rest) = rest.split_first_chunk::<8>()?;
            Some((usize::try_from(u64::from_be_bytes(*length)).ok()?, rest))
        }
        length => Some((usize::from(length), rest)),
    }
}
