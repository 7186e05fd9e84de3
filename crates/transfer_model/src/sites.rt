//! Sites of rules.

ghost use Rattle.std.specs.Prelude.{◌≡◌};
ghost use Rattle.transfer_model.specs.Sites.{Site};

use std::marker::Model;

/// Where a rule may apply (Oepen et al. 2004): the places of the elementary predications for the elements of INPUT and then of CONTEXT, and the
/// variables of their coreferences, in order of writing. A place and a variable are counted from 0 in the MRS.
#[derive(Drop)]
pub struct Site {
    places: Vec<u32>,
    vars: Vec<u32>,
}

impl Model for Site {
    ghost use Rattle.transfer_model.specs.Sites.{Site};

    ghost Value = { Site };

    ghost view = { λ s. record { places = s.places.items; vars = s.vars.items } };
}

impl Site {
    /// The site with these places and variables.
    pub fn new(places: Vec<u32>, vars: Vec<u32>) -> Site
        ensures { result ≡ record { places = places.items; vars = vars.items } }
    {
        Site { places, vars }
    }

    /// The places of the elementary predications.
    pub fn places(&self) -> &[u32]
        ensures { result.now ≡ self.now.places }
    {
        &self.places
    }

    /// The variables of the coreferences.
    pub fn vars(&self) -> &[u32]
        ensures { result.now ≡ self.now.vars }
    {
        &self.vars
    }
}
