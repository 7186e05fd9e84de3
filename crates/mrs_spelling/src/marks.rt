//! A type for each kind of tokens.

ghost use Rattle.mrs_spelling.specs.declared.kinds.Kind.{Kind};

use crate::kinds::Kind;

/// A kind of tokens.
pub(crate) trait Mark {
    ghost KIND: { Kind };

    const KIND: Kind;
}

pub(crate) struct Top;

impl Mark for Top {
    ghost KIND = { Kind.Top };

    const KIND: Kind = Kind::Top;
}

pub(crate) struct Index;

impl Mark for Index {
    ghost KIND = { Kind.Index };

    const KIND: Kind = Kind::Index;
}

pub(crate) struct PropName;

impl Mark for PropName {
    ghost KIND = { Kind.PropName };

    const KIND: Kind = Kind::PropName;
}

pub(crate) struct PropValue;

impl Mark for PropValue {
    ghost KIND = { Kind.PropValue };

    const KIND: Kind = Kind::PropValue;
}

pub(crate) struct PredRun;

impl Mark for PredRun {
    ghost KIND = { Kind.PredRun };

    const KIND: Kind = Kind::PredRun;
}

pub(crate) struct PredText;

impl Mark for PredText {
    ghost KIND = { Kind.PredText };

    const KIND: Kind = Kind::PredText;
}

pub(crate) struct Link;

impl Mark for Link {
    ghost KIND = { Kind.Link };

    const KIND: Kind = Kind::Link;
}

pub(crate) struct Role;

impl Mark for Role {
    ghost KIND = { Kind.Role };

    const KIND: Kind = Kind::Role;
}

pub(crate) struct Filler;

impl Mark for Filler {
    ghost KIND = { Kind.Filler };

    const KIND: Kind = Kind::Filler;
}

pub(crate) struct OpensText;

impl Mark for OpensText {
    ghost KIND = { Kind.OpensText };

    const KIND: Kind = Kind::OpensText;
}

pub(crate) struct Text;

impl Mark for Text {
    ghost KIND = { Kind.Text };

    const KIND: Kind = Kind::Text;
}

pub(crate) struct EpEnd;

impl Mark for EpEnd {
    ghost KIND = { Kind.EpEnd };

    const KIND: Kind = Kind::EpEnd;
}

pub(crate) struct High;

impl Mark for High {
    ghost KIND = { Kind.High };

    const KIND: Kind = Kind::High;
}

pub(crate) struct HandleRel;

impl Mark for HandleRel {
    ghost KIND = { Kind.HandleRel };

    const KIND: Kind = Kind::HandleRel;
}

pub(crate) struct Low;

impl Mark for Low {
    ghost KIND = { Kind.Low };

    const KIND: Kind = Kind::Low;
}

pub(crate) struct Left;

impl Mark for Left {
    ghost KIND = { Kind.Left };

    const KIND: Kind = Kind::Left;
}

pub(crate) struct VariableRel;

impl Mark for VariableRel {
    ghost KIND = { Kind.VariableRel };

    const KIND: Kind = Kind::VariableRel;
}

pub(crate) struct Right;

impl Mark for Right {
    ghost KIND = { Kind.Right };

    const KIND: Kind = Kind::Right;
}
