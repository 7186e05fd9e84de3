//! Readers of forms: each reads a form off the beginning of a text, and appends the form's tokens.

ghost use Rattle.std.specs.Prelude.{◌≡◌, ℕ, List, IfOk, IfErr};
ghost use Rattle.std.specs.Str.{chars, IsUtf8};
ghost use Rattle.mrs_spelling.specs.Forms.{Form, sign, seq, many, either, token, nothing};
ghost use Rattle.mrs_spelling.specs.Scanning.{HasRead, HasStopped};
ghost use Rattle.mrs_spelling.specs.Inner.Fitting.{Leads};
ghost use Rattle.mrs_spelling.specs.Reading.{done};

use crate::classes::{CharClass, begins, first};
use crate::marks::Mark;
use crate::tokens::{Stop, Token};
use std::marker::PhantomData;

/// A form of text.
pub(crate) trait Reader {
    ghost form: { Form };

    /// The text after the form.
    fn read<'a>(text: &'a str, tokens: &mut Vec<Token<'a>>) -> Result<&'a str, Stop>
        ensures read { IfOk result (λ rest. HasRead form done (chars text.now) (chars rest.now) tokens.old.items tokens.new.items) }
        ensures stopped { IfErr result (λ e. HasStopped form (chars text.now) tokens.old.items tokens.new.items e) }
        ensures utf8 { IfOk result (λ rest. IsUtf8 rest.now) };
}

/// A form that begins with a character of the class.
pub(crate) trait Begins<C: CharClass>: Reader {
    ghost leads: { Leads C.class Self.form };
}

/// Nothing.
pub(crate) struct Nothing;

impl Reader for Nothing {
    ghost form = { nothing };

    fn read<'a>(text: &'a str, _tokens: &mut Vec<Token<'a>>) -> Result<&'a str, Stop> {
        Ok(text)
    }
}

/// A character of a class.
pub(crate) struct Sign<C> {
    of: PhantomData<C>,
}

impl<C: CharClass> Reader for Sign<C> {
    ghost form = { sign C.class };

    fn read<'a>(text: &'a str, _tokens: &mut Vec<Token<'a>>) -> Result<&'a str, Stop> {
        match first(text) {
            Some((c, rest)) if C::has(c) => Ok(rest),
            _ => Err(Stop::Left(text.len())),
        }
    }
}

impl<C: CharClass> Begins<C> for Sign<C> {
    ghost leads = { λ c h. h };
}

/// The one form and then the other.
pub(crate) struct Then<P, Q> {
    of: PhantomData<(P, Q)>,
}

impl<P: Reader, Q: Reader> Reader for Then<P, Q> {
    ghost form = { seq P.form Q.form };

    fn read<'a>(text: &'a str, tokens: &mut Vec<Token<'a>>) -> Result<&'a str, Stop> {
        let rest = P::read(text, tokens)?;
        Q::read(rest, tokens)
    }
}

impl<C: CharClass, P: Begins<C>, Q: Reader> Begins<C> for Then<P, Q> {
    ghost leads = { P.Begins.leads };
}

/// The form again and again, as long as the next character is in the class.
pub(crate) struct Many<C, P> {
    of: PhantomData<(C, P)>,
}

impl<C: CharClass, P: Begins<C>> Reader for Many<C, P> {
    ghost form = { many C.class P.form };

    fn read<'a>(text: &'a str, tokens: &mut Vec<Token<'a>>) -> Result<&'a str, Stop> {
        let mut rest = text;
        while begins::<C>(rest) {
            rest = P::read(rest, tokens)?;
        }
        Ok(rest)
    }
}

/// The characters of a class, as many as there are.
pub(crate) struct Runs<C> {
    of: PhantomData<C>,
}

impl<C: CharClass> Reader for Runs<C> {
    ghost form = { many C.class (sign C.class) };

    fn read<'a>(text: &'a str, _tokens: &mut Vec<Token<'a>>) -> Result<&'a str, Stop> {
        let mut rest = text;
        while let Some((c, after)) = first(rest) {
            if !C::has(c) {
                return Ok(rest);
            }
            rest = after;
        }
        Ok(rest)
    }
}

/// The first form where the next character is in the class, otherwise the second.
pub(crate) struct Either<C, P, Q> {
    of: PhantomData<(C, P, Q)>,
}

impl<C: CharClass, P: Begins<C>, Q: Reader> Reader for Either<C, P, Q> {
    ghost form = { either C.class P.form Q.form };

    fn read<'a>(text: &'a str, tokens: &mut Vec<Token<'a>>) -> Result<&'a str, Stop> {
        if begins::<C>(text) {
            P::read(text, tokens)
        } else {
            Q::read(text, tokens)
        }
    }
}

impl<D: CharClass, C: CharClass, P: Begins<C>, Q: Begins<D>> Begins<D> for Either<C, P, Q> {
    ghost leads = { (P.Begins.leads, Q.Begins.leads) };
}

/// A token of a kind.
pub(crate) struct As<K, P> {
    of: PhantomData<(K, P)>,
}

impl<K: Mark, P: Reader> Reader for As<K, P> {
    ghost form = { token K.KIND P.form };

    fn read<'a>(text: &'a str, tokens: &mut Vec<Token<'a>>) -> Result<&'a str, Stop> {
        let rest = P::read(text, tokens)?;
        let left = text.len();
        tokens.push(Token {
            kind: K::KIND,
            text: &text[..left - rest.len()],
            left,
        })?;
        Ok(rest)
    }
}

impl<C: CharClass, K: Mark, P: Begins<C>> Begins<C> for As<K, P> {
    ghost leads = { P.Begins.leads };
}
