//! Strings, Booleans and whole numbers as shapes.
use crate::fault::ShapeFault;
use crate::parsed::Parsed;
use crate::shape::Shape;
use bidi_tree::{JsInt, JsUint, Outline};
use std::alloc::{AllocError, Global};

impl Shape for String {
    ghost use Rattle.bidi_shape.specs.ScalarShapes.{string_shape};

    ghost shape = { string_shape };

    fn from_tree<S: Parsed>(alloc: Global, tree: &S) -> Result<String, ShapeFault> {
        match tree.as_str() {
            Some(text) => Ok(String::from_str(alloc, text)?),
            None => Err(ShapeFault::NoFit),
        }
    }

    fn outline<'a>(&'a self, alloc: Global) -> Result<Outline<'a>, AllocError> {
        Ok(Outline::Text(self.as_str()))
    }
}

impl Shape for bool {
    ghost use Rattle.bidi_shape.specs.ScalarShapes.{bool_shape};

    ghost shape = { bool_shape };

    fn from_tree<S: Parsed>(alloc: Global, tree: &S) -> Result<bool, ShapeFault> {
        tree.as_bool().ok_or(ShapeFault::NoFit)
    }

    fn outline<'a>(&'a self, alloc: Global) -> Result<Outline<'a>, AllocError> {
        Ok(Outline::Bool(*self))
    }
}

impl Shape for JsUint {
    ghost use Rattle.bidi_shape.specs.ScalarShapes.{js_uint_shape};

    ghost shape = { js_uint_shape };

    fn from_tree<S: Parsed>(alloc: Global, tree: &S) -> Result<JsUint, ShapeFault> {
        match tree.as_int() {
            Some(n) if n.value >= 0 => JsUint::new(n.value as u64).ok_or(ShapeFault::NoFit),
            _ => Err(ShapeFault::NoFit),
        }
    }

    fn outline<'a>(&'a self, alloc: Global) -> Result<Outline<'a>, AllocError> {
        Ok(Outline::Int(JsInt::new(self.value as i64).unwrap()))
    }
}

impl Shape for JsInt {
    ghost use Rattle.bidi_shape.specs.ScalarShapes.{js_int_shape};

    ghost shape = { js_int_shape };

    fn from_tree<S: Parsed>(alloc: Global, tree: &S) -> Result<JsInt, ShapeFault> {
        tree.as_int().ok_or(ShapeFault::NoFit)
    }

    fn outline<'a>(&'a self, alloc: Global) -> Result<Outline<'a>, AllocError> {
        Ok(Outline::Int(*self))
    }
}
