//! Log entries, their levels and their sources.
ghost use Rattle.std.specs.Prelude.{◌≡◌, OnOk, refl, [], ◌∷◌, codes, IfOk, true};
ghost use Rattle.bidi_tree.specs.Node as kind;
ghost use Rattle.bidi_tree.specs.Node.{MembersAreWhole};
ghost use Rattle.bidi_tree.specs.Outline.{outline_members};
ghost use Rattle.bidi_tree.specs.View.{members_node};
ghost use Rattle.bidi_shape.specs.Table.{map_shape, names_in};
ghost use Rattle.bidi_shape.specs.Name.{source, console_entry, javascript_entry, generic_log_entry, log_entry};
ghost use Rattle.bidi_shape.specs.Term.{rule as named, either};
ghost use Rattle.bidi_scripts.specs.LogEntry.{and_base, table_through, generic_map};

use crate::stack_trace::StackTrace;
use bidi_shape::{
    Closed, Either, End, Ext, Fields, Literal, MakeFault, Maybe, Named, One, Optional, Parsed,
    Required, Shape, ShapeFault, add_literal, add_member, add_optional, not_shadowed,
    outline_fields, read_choice, read_fields,
};
use bidi_tree::{JsUint, Members, Outline, OutlineMembers, outline_members_of};
use bidi_values::RemoteValue;
use std::alloc::{AllocError, Global};

/// How grave a log entry is.
///
/// `"debug" / "info" / "warn" / "error"`
///
/// After WebDriver BiDi, "The log.LogEntry Type".
#[derive(Clone, Copy, Debug, PartialEq, Eq)]
pub enum Level {
    /// Of `console.debug` and `console.trace`.
    Debug,
    /// Of `console.log`, and of each call of the console that has no other level.
    Info,
    /// Of `console.warn`.
    Warn,
    /// Of `console.error`, of `console.assert`, and of an error that a script did not catch.
    Error,
}

impl Named for Level {
    ghost use Rattle.bidi_scripts.specs.Level.{level_words};

    ghost words = { level_words };

    fn all() -> &'static [Level] {
        &[Level::Debug, Level::Info, Level::Warn, Level::Error]
    }

    fn name(&self) -> &'static str {
        match self {
            Level::Debug => "debug",
            Level::Info => "info",
            Level::Warn => "warn",
            Level::Error => "error",
        }
    }
}

/// The realm that a log entry comes from, with its browsing context.
///
/// `{ realm: text, ? context: text }`
///
/// After WebDriver BiDi, "The script.Source Type".
#[derive(Drop)]
pub struct Source {
    pub realm: String,
    pub context: Option<String>,
}

impl Source {
    // In the order of the rule.
    const NAMES: &'static [&'static str] = &["realm", "context"];
}

impl Shape for Source {
    ghost shape = { map_shape (named source) ⟦<Required<String, Optional<String, Closed>> as Fields>⟧.table [] (λ v. (v.realm, (v.context, record {}))) refl refl };

    fn from_tree<S: Parsed>(alloc: Global, tree: &S) -> Result<Source, ShapeFault> {
        let parts = read_fields(alloc, tree, Self::NAMES, &[])?;
        let Required(realm, Optional(context, Closed)) = parts;
        Ok(Source { realm, context })
    }

    fn outline<'a>(&'a self, alloc: Global) -> Result<Outline<'a>, AllocError> {
        let members = One(&self.realm, Maybe(&self.context, End));
        outline_fields(alloc, &members, Self::NAMES, &[])
    }
}

/// What every log entry has.
///
/// `( level: "debug" / "info" / "warn" / "error", source: Source, text: text / null, timestamp: js-uint,
/// ? stackTrace: StackTrace )`
///
/// `timestamp` is the moment of the entry; `text` tells it in words, where there are some.
///
/// After WebDriver BiDi, "The log.LogEntry Type".
#[derive(Drop)]
pub struct BaseLogEntry {
    pub level: Level,
    pub source: Source,
    pub text: Option<String>,
    pub timestamp: JsUint,
    pub stack_trace: Option<StackTrace>,
}

/// What every log entry has, and the members after it.
#[derive(Drop)]
struct WithBase<F: Drop>(BaseLogEntry, F);

type BaseParts<F> = Required<
    Level,
    Required<Source, Required<Option<String>, Required<JsUint, Optional<StackTrace, F>>>>,
>;

impl<F: Fields> Fields for WithBase<F> {
    ghost table = { table_through ⟦<BaseParts<F> as Fields>⟧.table (λ w. (w.0.level, (w.0.source, (w.0.text, (w.0.timestamp, (w.0.stack_trace, w.1)))))) };

    fn read<'a, S: Parsed>(
        alloc: Global,
        map: &S,
        names: &'a [&'a str],
        texts: &'a [&'a str],
        known: &'a [&'a str],
    ) -> Result<WithBase<F>, ShapeFault> {
        let Required(
            level,
            Required(source, Required(text, Required(timestamp, Optional(stack_trace, rest)))),
        ) = BaseParts::<F>::read(alloc, map, names, texts, known)?;
        let base = BaseLogEntry {
            level,
            source,
            text,
            timestamp,
            stack_trace,
        };
        Ok(WithBase(base, rest))
    }
}

/// Puts what every log entry has among the members of a map.
fn add_base<'a>(
    alloc: Global,
    members: &mut OutlineMembers<'a>,
    base: &'a BaseLogEntry,
) -> Result<(), AllocError>
    ensures { OnOk result (outline_members members.new ≡ and_base base.now (outline_members members.old)) }
{
    add_optional(alloc, members, "stackTrace", &base.stack_trace)?;
    add_member(alloc, members, "timestamp", &base.timestamp)?;
    add_member(alloc, members, "text", &base.text)?;
    add_member(alloc, members, "source", &base.source)?;
    add_member(alloc, members, "level", &base.level)
}

/// An entry that a call of the console made, with the method that was called, as `warn`, and what it was given.
///
/// `{ Base, type: "console", method: text, args: [*RemoteValue] }`
///
/// After WebDriver BiDi, "The log.LogEntry Type".
#[derive(Drop)]
pub struct ConsoleEntry {
    pub base: BaseLogEntry,
    pub method: String,
    pub args: Vec<RemoteValue>,
}

impl ConsoleEntry {
    // In the order of the rule.
    const NAMES: &'static [&'static str] = &[
        "level",
        "source",
        "text",
        "timestamp",
        "stackTrace",
        "type",
        "method",
        "args",
    ];
}

impl Shape for ConsoleEntry {
    ghost shape = { map_shape (named console_entry) ⟦<WithBase<Literal<Required<String, Required<Vec<RemoteValue>, Closed>>>> as Fields>⟧.table (codes "console" ∷ [])
        (λ v. (v.base, record { 0 = (v.method, (v.args, record {})) })) refl refl };

    fn from_tree<S: Parsed>(alloc: Global, tree: &S) -> Result<ConsoleEntry, ShapeFault> {
        let parts = read_fields(alloc, tree, Self::NAMES, &["console"])?;
        let WithBase(base, Literal(Required(method, Required(args, Closed)))) = parts;
        Ok(ConsoleEntry { base, method, args })
    }

    fn outline<'a>(&'a self, alloc: Global) -> Result<Outline<'a>, AllocError> {
        let mut members = OutlineMembers::with_capacity(alloc, Self::NAMES.len())?;
        add_member(alloc, &mut members, "args", &self.args)?;
        add_member(alloc, &mut members, "method", &self.method)?;
        add_literal(&mut members, "type", "console")?;
        add_base(alloc, &mut members, &self.base)?;
        Ok(Outline::Map(members))
    }
}

/// An entry that an error of a script made.
///
/// `{ Base, type: "javascript" }`
///
/// After WebDriver BiDi, "The log.LogEntry Type".
#[derive(Drop)]
pub struct JavascriptEntry {
    pub base: BaseLogEntry,
}

impl JavascriptEntry {
    // In the order of the rule.
    const NAMES: &'static [&'static str] = &[
        "level",
        "source",
        "text",
        "timestamp",
        "stackTrace",
        "type",
    ];
}

impl Shape for JavascriptEntry {
    ghost shape = { map_shape (named javascript_entry) ⟦<WithBase<Literal<Closed>> as Fields>⟧.table (codes "javascript" ∷ [])
        (λ v. (v.base, record { 0 = record {} })) refl refl };

    fn from_tree<S: Parsed>(alloc: Global, tree: &S) -> Result<JavascriptEntry, ShapeFault> {
        let parts = read_fields(alloc, tree, Self::NAMES, &["javascript"])?;
        let WithBase(base, Literal(Closed)) = parts;
        Ok(JavascriptEntry { base })
    }

    fn outline<'a>(&'a self, alloc: Global) -> Result<Outline<'a>, AllocError> {
        let mut members = OutlineMembers::with_capacity(alloc, Self::NAMES.len())?;
        add_literal(&mut members, "type", "javascript")?;
        add_base(alloc, &mut members, &self.base)?;
        Ok(Outline::Map(members))
    }
}

/// An entry that is neither of the two: of any other type, with other members, or with some that do not fit.
///
/// `{ Base, type: text, Extensible }`
///
/// After WebDriver BiDi, "The log.LogEntry Type".
#[derive(Drop)]
pub struct GenericLogEntry {
    pub base: BaseLogEntry,
    /// The member `type`.
    pub kind: String,
    pub ext: Ext,
}

impl GenericLogEntry {
    ghost use Rattle.bidi_shape.specs.Fits.{Fits};
    ghost use Rattle.bidi_shape.specs.Made.{Makes, has_named, others_of};

    // In the order of the rule.
    const NAMES: &'static [&'static str] = &[
        "level",
        "source",
        "text",
        "timestamp",
        "stackTrace",
        "type",
    ];

    /// The entry, with further members.
    ///
    /// # Errors
    /// - `Clash`: a further member is called `level`, `source`, `text`, `timestamp`, `stackTrace` or `type`.
    /// - `Shadowed`: the map is a [`ConsoleEntry`] or a [`JavascriptEntry`].
    /// - `TooDeep`: a further member has an `Odd` in it, or more than 60 levels.
    /// - `NoMemory`: an allocation failed.
    pub fn new(
        alloc: Global,
        base: BaseLogEntry,
        kind: String,
        ext: Members,
    ) -> Result<GenericLogEntry, MakeFault>
        // Memory aside, the first cause that holds is the fault; with none, the value has these parts.
        ensures made { Makes result
            (has_named (names_in (named generic_log_entry)) (members_node ext.entries) ≡ true)
            (Fits (generic_map base kind (members_node ext.entries)) (either (named console_entry) (named javascript_entry)))
            (¬ MembersAreWhole (members_node ext.entries) 60)
            (λ v. (v.base ≡ base) × (v.kind ≡ kind) × (others_of v.ext ≡ members_node ext.entries)) }
        // The value is well-formed, so its tree fits the type's rule.
        ensures well { IfOk result (λ v. ⟦<GenericLogEntry as Shape>⟧.shape.well v) }
    {
        let ext = Ext::new(ext, Self::NAMES)?;
        let made = GenericLogEntry { base, kind, ext };
        not_shadowed::<Either<ConsoleEntry, JavascriptEntry>, GenericLogEntry>(alloc, &made)?;
        if !made.ext.is_whole() {
            return Err(MakeFault::TooDeep);
        }
        Ok(made)
    }
}

impl Shape for GenericLogEntry {
    ghost shape = { map_shape (named generic_log_entry) ⟦<WithBase<Required<String, Ext>> as Fields>⟧.table [] (λ v. (v.base, (v.kind, v.ext))) refl refl };

    fn from_tree<S: Parsed>(alloc: Global, tree: &S) -> Result<GenericLogEntry, ShapeFault> {
        let WithBase(base, Required(kind, ext)) = read_fields(alloc, tree, Self::NAMES, &[])?;
        Ok(GenericLogEntry { base, kind, ext })
    }

    fn outline<'a>(&'a self, alloc: Global) -> Result<Outline<'a>, AllocError> {
        let mut members = outline_members_of(alloc, &self.ext.members, Self::NAMES.len())?;
        add_member(alloc, &mut members, "type", &self.kind)?;
        add_base(alloc, &mut members, &self.base)?;
        Ok(Outline::Map(members))
    }
}

/// An entry of the log.
///
/// `ConsoleEntry / JavascriptEntry / GenericLogEntry`
///
/// After WebDriver BiDi, "The log.LogEntry Type".
#[derive(Drop)]
pub enum LogEntry {
    /// A call of the console: its `type` is `console`, and no member is too many or of the wrong kind.
    Console(ConsoleEntry),
    /// An error of a script: its `type` is `javascript`, and no member is too many.
    Javascript(JavascriptEntry),
    /// Any other entry: of another `type`, or of one of these two with other members.
    Generic(GenericLogEntry),
}

impl Shape for LogEntry {
    ghost use Rattle.bidi_shape.specs.ThroughLaws.{shape_through};
    ghost use Rattle.bidi_shape.specs.declared.choice.Either.TheVariants.{First, Second};
    ghost use Rattle.bidi_scripts.specs.declared.log_entry.LogEntry.TheVariants.{Console, Javascript, Generic};

    ghost shape = { shape_through (named log_entry) ⟦<Either<ConsoleEntry, Either<JavascriptEntry, GenericLogEntry>> as Shape>⟧.shape
        (λ v. elim v [ Console c ↦ First c | Javascript j ↦ Second (First j) | Generic g ↦ Second (Second g) ]) refl };

    fn from_tree<S: Parsed>(alloc: Global, tree: &S) -> Result<LogEntry, ShapeFault> {
        use Either::{First, Second};

        match read_choice(alloc, tree)? {
            First(console) => Ok(LogEntry::Console(console)),
            Second(First(javascript)) => Ok(LogEntry::Javascript(javascript)),
            Second(Second(generic)) => Ok(LogEntry::Generic(generic)),
        }
    }

    fn outline<'a>(&'a self, alloc: Global) -> Result<Outline<'a>, AllocError> {
        match self {
            LogEntry::Console(console) => console.outline(alloc),
            LogEntry::Javascript(javascript) => javascript.outline(alloc),
            LogEntry::Generic(generic) => generic.outline(alloc),
        }
    }
}
