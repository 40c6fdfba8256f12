//! The table of a play: what each script does.
ghost use Rattle.std.specs.Prelude.{refl, []};
ghost use Rattle.bidi_shape.specs.Table.{map_shape};
ghost use Rattle.bidi_scripts.specs.Outcomes.{returns_row, throws_row, argument_row};

use bidi_shape::{
    Closed, Either, End, Fields, One, Parsed, Required, Shape, ShapeFault, outline_fields,
    read_choice, read_fields,
};
use bidi_tree::{JsUint, Outline};
use bidi_values::RemoteValue;
use std::alloc::{AllocError, Global};

/// A script that returns a value, which is the member `returns`.
///
/// `{ text: text, returns: RemoteValue }`
///
/// This project's own, as docs/FORMATS.md gives it, "Table of a play".
#[derive(Drop)]
pub struct ReturnsRow {
    pub text: String,
    pub value: RemoteValue,
}

impl ReturnsRow {
    // In the order of the rule.
    const NAMES: &'static [&'static str] = &["text", "returns"];
}

impl Shape for ReturnsRow {
    ghost shape = { map_shape returns_row ⟦<Required<String, Required<RemoteValue, Closed>> as Fields>⟧.table [] (λ v. (v.text, (v.value, record {}))) refl refl };

    fn from_tree<S: Parsed>(alloc: Global, tree: &S) -> Result<ReturnsRow, ShapeFault> {
        let Required(text, Required(value, Closed)) = read_fields(alloc, tree, Self::NAMES, &[])?;
        Ok(ReturnsRow { text, value })
    }

    fn outline<'a>(&'a self, alloc: Global) -> Result<Outline<'a>, AllocError> {
        let members = One(&self.text, One(&self.value, End));
        outline_fields(alloc, &members, Self::NAMES, &[])
    }
}

/// A script that throws a value, which is the member `throws`.
///
/// `{ text: text, throws: RemoteValue }`
///
/// This project's own, as docs/FORMATS.md gives it, "Table of a play".
#[derive(Drop)]
pub struct ThrowsRow {
    pub text: String,
    pub value: RemoteValue,
}

impl ThrowsRow {
    // In the order of the rule.
    const NAMES: &'static [&'static str] = &["text", "throws"];
}

impl Shape for ThrowsRow {
    ghost shape = { map_shape throws_row ⟦<Required<String, Required<RemoteValue, Closed>> as Fields>⟧.table [] (λ v. (v.text, (v.value, record {}))) refl refl };

    fn from_tree<S: Parsed>(alloc: Global, tree: &S) -> Result<ThrowsRow, ShapeFault> {
        let Required(text, Required(value, Closed)) = read_fields(alloc, tree, Self::NAMES, &[])?;
        Ok(ThrowsRow { text, value })
    }

    fn outline<'a>(&'a self, alloc: Global) -> Result<Outline<'a>, AllocError> {
        let members = One(&self.text, One(&self.value, End));
        outline_fields(alloc, &members, Self::NAMES, &[])
    }
}

/// A script that returns one of its arguments, counted from 0 by the member `argument`.
///
/// `{ text: text, argument: js-uint }`
///
/// This project's own, as docs/FORMATS.md gives it, "Table of a play".
#[derive(Drop)]
pub struct ArgumentRow {
    pub text: String,
    pub index: JsUint,
}

impl ArgumentRow {
    // In the order of the rule.
    const NAMES: &'static [&'static str] = &["text", "argument"];
}

impl Shape for ArgumentRow {
    ghost shape = { map_shape argument_row ⟦<Required<String, Required<JsUint, Closed>> as Fields>⟧.table [] (λ v. (v.text, (v.index, record {}))) refl refl };

    fn from_tree<S: Parsed>(alloc: Global, tree: &S) -> Result<ArgumentRow, ShapeFault> {
        let Required(text, Required(index, Closed)) = read_fields(alloc, tree, Self::NAMES, &[])?;
        Ok(ArgumentRow { text, index })
    }

    fn outline<'a>(&'a self, alloc: Global) -> Result<Outline<'a>, AllocError> {
        let members = One(&self.text, One(&self.index, End));
        outline_fields(alloc, &members, Self::NAMES, &[])
    }
}

/// What a script of that text does.
///
/// The maps of [`ReturnsRow`], [`ThrowsRow`] and [`ArgumentRow`], in this order. A script is known by its whole text.
///
/// This project's own, as docs/FORMATS.md gives it, "Table of a play".
#[derive(Drop)]
pub enum TableRow {
    /// It runs to its end, with a value.
    Returns(ReturnsRow),
    /// It throws a value.
    Throws(ThrowsRow),
    /// It gives back an argument, or `undefined` where it has none of that index.
    Argument(ArgumentRow),
}

impl Shape for TableRow {
    ghost use Rattle.bidi_shape.specs.ThroughLaws.{shape_through};
    ghost use Rattle.bidi_shape.specs.declared.choice.Either.TheVariants.{First, Second};
    ghost use Rattle.bidi_scripts.specs.declared.table_row.TableRow.TheVariants.{Returns, Throws, Argument};
    ghost use Rattle.bidi_shape.specs.Name.{table_row};
    ghost use Rattle.bidi_shape.specs.Term.{rule as named};

    ghost shape = { shape_through (named table_row) ⟦<Either<ReturnsRow, Either<ThrowsRow, ArgumentRow>> as Shape>⟧.shape
        (λ v. elim v [ Returns r ↦ First r | Throws t ↦ Second (First t) | Argument a ↦ Second (Second a) ]) refl };

    fn from_tree<S: Parsed>(alloc: Global, tree: &S) -> Result<TableRow, ShapeFault> {
        use Either::{First, Second};

        match read_choice(alloc, tree)? {
            First(returns) => Ok(TableRow::Returns(returns)),
            Second(First(throws)) => Ok(TableRow::Throws(throws)),
            Second(Second(argument)) => Ok(TableRow::Argument(argument)),
        }
    }

    fn outline<'a>(&'a self, alloc: Global) -> Result<Outline<'a>, AllocError> {
        match self {
            TableRow::Returns(returns) => returns.outline(alloc),
            TableRow::Throws(throws) => throws.outline(alloc),
            TableRow::Argument(argument) => argument.outline(alloc),
        }
    }
}
