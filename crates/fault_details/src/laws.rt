//! A law of what is told of a fault beyond its place.

ghost use Rattle.std.specs.Prelude.{◌≡◌, ℕ, List, Option, Some};
ghost use Rattle.grammar_settings.specs.Forms.{Name};
ghost use Rattle.grammar_files.specs.declared.fault.Why.{Why};
ghost use Rattle.fault_details.specs.Further.{IsFurther};

use forced_types::forced_laws;
use grammar_files::laws::one_walk;
use grammar_types::laws::one_settling;

/// Where the files are told, one thing at most is told of a cause beyond its place.
pub fn one_further()
    ensures { (files : Name → Option (List ℕ)) (name : Name) (settings : Option Name) (why : Why) (a b : List ℕ)
        → IsFurther (Some files) name settings why a → IsFurther (Some files) name settings why b → a ≡ b }
{
    one_walk();
    one_settling();
    forced_laws();
}
