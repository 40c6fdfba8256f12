//! What a script that was run gives.
ghost use Rattle.std.specs.Prelude.{refl, [], ◌∷◌, codes};
ghost use Rattle.bidi_shape.specs.Table.{map_shape};
ghost use Rattle.bidi_scripts.specs.Outcomes.{evaluate_success, evaluate_exception};

use crate::exception::ExceptionDetails;
use bidi_shape::{
    Closed, Either, End, Exact, Fields, Literal, One, Parsed, Required, Shape, ShapeFault,
    outline_fields, read_choice, read_fields,
};
use bidi_tree::Outline;
use bidi_values::RemoteValue;
use std::alloc::{AllocError, Global};

/// The value of a script that ran to its end, and the realm that it ran in.
///
/// `{ type: "success", result: RemoteValue, realm: text }`
///
/// After WebDriver BiDi, "The script.EvaluateResult Type".
#[derive(Drop)]
pub struct EvaluateSuccess {
    pub result: RemoteValue,
    pub realm: String,
}

impl EvaluateSuccess {
    // In the order of the rule.
    const NAMES: &'static [&'static str] = &["type", "result", "realm"];
}

impl Shape for EvaluateSuccess {
    ghost shape = { map_shape evaluate_success ⟦<Literal<Required<RemoteValue, Required<String, Closed>>> as Fields>⟧.table (codes "success" ∷ [])
        (λ v. record { 0 = (v.result, (v.realm, record {})) }) refl refl };

    fn from_tree<S: Parsed>(alloc: Global, tree: &S) -> Result<EvaluateSuccess, ShapeFault> {
        let parts = read_fields(alloc, tree, Self::NAMES, &["success"])?;
        let Literal(Required(result, Required(realm, Closed))) = parts;
        Ok(EvaluateSuccess { result, realm })
    }

    fn outline<'a>(&'a self, alloc: Global) -> Result<Outline<'a>, AllocError> {
        let members = Exact(One(&self.result, One(&self.realm, End)));
        outline_fields(alloc, &members, Self::NAMES, &["success"])
    }
}

/// The error of a script that threw, and the realm that it ran in.
///
/// `{ type: "exception", exceptionDetails: ExceptionDetails, realm: text }`
///
/// After WebDriver BiDi, "The script.EvaluateResult Type".
#[derive(Drop)]
pub struct EvaluateException {
    pub exception_details: ExceptionDetails,
    pub realm: String,
}

impl EvaluateException {
    // In the order of the rule.
    const NAMES: &'static [&'static str] = &["type", "exceptionDetails", "realm"];
}

impl Shape for EvaluateException {
    ghost shape = { map_shape evaluate_exception ⟦<Literal<Required<ExceptionDetails, Required<String, Closed>>> as Fields>⟧.table (codes "exception" ∷ [])
        (λ v. record { 0 = (v.exception_details, (v.realm, record {})) }) refl refl };

    fn from_tree<S: Parsed>(alloc: Global, tree: &S) -> Result<EvaluateException, ShapeFault> {
        let parts = read_fields(alloc, tree, Self::NAMES, &["exception"])?;
        let Literal(Required(exception_details, Required(realm, Closed))) = parts;
        Ok(EvaluateException {
            exception_details,
            realm,
        })
    }

    fn outline<'a>(&'a self, alloc: Global) -> Result<Outline<'a>, AllocError> {
        let members = Exact(One(&self.exception_details, One(&self.realm, End)));
        outline_fields(alloc, &members, Self::NAMES, &["exception"])
    }
}

/// What a script that was run gives: its value, or its error.
///
/// The maps of [`EvaluateSuccess`] and [`EvaluateException`], in this order.
///
/// After WebDriver BiDi, "The script.EvaluateResult Type".
#[derive(Drop)]
pub enum EvaluateResult {
    /// The script ran to its end.
    Success(EvaluateSuccess),
    /// The script threw. The command was carried out none the less.
    Exception(EvaluateException),
}

impl Shape for EvaluateResult {
    ghost use Rattle.bidi_shape.specs.ThroughLaws.{shape_through};
    ghost use Rattle.bidi_shape.specs.declared.choice.Either.TheVariants.{First, Second};
    ghost use Rattle.bidi_scripts.specs.declared.evaluate_result.EvaluateResult.TheVariants.{Success, Exception};
    ghost use Rattle.bidi_shape.specs.Name.{evaluate_result};
    ghost use Rattle.bidi_shape.specs.Term.{rule as named};

    ghost shape = { shape_through (named evaluate_result) ⟦<Either<EvaluateSuccess, EvaluateException> as Shape>⟧.shape
        (λ v. elim v [ Success s ↦ First s | Exception e ↦ Second e ]) refl };

    fn from_tree<S: Parsed>(alloc: Global, tree: &S) -> Result<EvaluateResult, ShapeFault> {
        match read_choice(alloc, tree)? {
            Either::First(success) => Ok(EvaluateResult::Success(success)),
            Either::Second(exception) => Ok(EvaluateResult::Exception(exception)),
        }
    }

    fn outline<'a>(&'a self, alloc: Global) -> Result<Outline<'a>, AllocError> {
        match self {
            EvaluateResult::Success(success) => success.outline(alloc),
            EvaluateResult::Exception(exception) => exception.outline(alloc),
        }
    }
}
