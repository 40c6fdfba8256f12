//! Values of which no content is told.
use bidi_shape::Named;

/// The type of a value of which a message tells no content.
///
/// `"symbol" / "function" / "weakmap" / "weakset" / "generator" / "error" / "proxy" / "promise" / "typedarray" /
/// "arraybuffer"`
///
/// After WebDriver BiDi, "The script.RemoteValue Type".
#[derive(Clone, Copy, Debug, PartialEq, Eq)]
pub enum Opaque {
    /// `symbol`: a value like no other, which may name a property.
    Symbol,
    /// `function`: a function, whatever its form.
    Function,
    /// `weakmap`: a `WeakMap`, which does not keep its keys alive.
    WeakMap,
    /// `weakset`: a `WeakSet`, which does not keep its members alive.
    WeakSet,
    /// `generator`: what a call of a generator function gives.
    Generator,
    /// `error`: an error, as a script throws one.
    Error,
    /// `proxy`: a `Proxy`, whatever stands behind it.
    Proxy,
    /// `promise`: a promise, settled or not.
    Promise,
    /// `typedarray`: a view of bytes as numbers, as a `Uint8Array`.
    TypedArray,
    /// `arraybuffer`: bytes without a view.
    ArrayBuffer,
}

impl Named for Opaque {
    ghost use Rattle.bidi_values.specs.Opaque.{opaque_words};

    ghost words = { opaque_words };

    fn all() -> &'static [Opaque] {
        &[
            Opaque::Symbol,
            Opaque::Function,
            Opaque::WeakMap,
            Opaque::WeakSet,
            Opaque::Generator,
            Opaque::Error,
            Opaque::Proxy,
            Opaque::Promise,
            Opaque::TypedArray,
            Opaque::ArrayBuffer,
        ]
    }

    fn name(&self) -> &'static str {
        match self {
            Opaque::Symbol => "symbol",
            Opaque::Function => "function",
            Opaque::WeakMap => "weakmap",
            Opaque::WeakSet => "weakset",
            Opaque::Generator => "generator",
            Opaque::Error => "error",
            Opaque::Proxy => "proxy",
            Opaque::Promise => "promise",
            Opaque::TypedArray => "typedarray",
            Opaque::ArrayBuffer => "arraybuffer",
        }
    }
}
