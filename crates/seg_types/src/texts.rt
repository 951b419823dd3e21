//! Prints kinds and values, in the form of the command language.
ghost use Rattle.std.specs.Prelude.{◌≡◌, Some};
ghost use Rattle.seg_types.specs.Texts.{class_text, kind_text, scalar_text, value_text};
ghost use Rattle.seg_types.specs.Values.{kind_of_scalar, value_of_scalar};

use crate::kinds::{Class, Kind, ScalarKind};
use crate::values::ScalarValue;
use std::fmt;

impl ScalarKind {
    /// Returns the kind's text.
    pub fn as_str(self) -> &'static str
        ensures { result.now ≡ scalar_text self }
    {
        match self {
            ScalarKind::Bool => "bool",
            ScalarKind::U8 => "u8",
            ScalarKind::I32 => "i32",
            ScalarKind::I64 => "i64",
            ScalarKind::U64 => "u64",
        }
    }
}

impl fmt::Display for ScalarKind {
    ghost output = { λ k. Some (scalar_text k) };

    // Printed unpadded, whatever the format options are.
    ghost styled_output = { λ k spec. Some (scalar_text k) };

    fn fmt<W: fmt::Write>(&self, f: &mut fmt::Formatter<W>) -> fmt::Result {
        f.write_str(self.as_str())
    }
}

impl fmt::Display for Kind {
    ghost output = { λ k. Some (kind_text k) };

    fn fmt<W: fmt::Write>(&self, f: &mut fmt::Formatter<W>) -> fmt::Result {
        match self {
            Kind::Scalar(kind) => f.write_str(kind.as_str()),
            Kind::String => f.write_str("string"),
            Kind::Vector(element) => write!(f, "vec<{element}>"),
            Kind::Map(key, value) => write!(f, "map<{key},{value}>"),
            Kind::Strings => f.write_str("vec<string>"),
        }
    }
}

impl Class {
    /// Returns the class's text.
    pub fn as_str(self) -> &'static str
        ensures { result.now ≡ class_text self }
    {
        match self {
            Class::Anonymous => "anonymous",
            Class::Named => "named",
            Class::Unique => "unique",
        }
    }
}

impl fmt::Display for Class {
    ghost output = { λ c. Some (class_text c) };

    ghost styled_output = { λ c spec. Some (class_text c) };

    fn fmt<W: fmt::Write>(&self, f: &mut fmt::Formatter<W>) -> fmt::Result {
        f.write_str(self.as_str())
    }
}

impl fmt::Display for ScalarValue {
    ghost output = { λ v. Some (value_text (kind_of_scalar v) (value_of_scalar v)) };

    fn fmt<W: fmt::Write>(&self, f: &mut fmt::Formatter<W>) -> fmt::Result {
        crate::by_value!(self, it => write!(f, "{it}"))
    }
}
