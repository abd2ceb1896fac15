//! Laws of procedures over finer and over coarser points. Each function only states a law by its contract, for any
//! procedures, and does nothing.
#![tactic(auto)]

ghost use Rattle.dcc_demand.specs.Procedures.{Procedures};
ghost use Rattle.dcc_refinement.specs.Refinement.{Refinement};
ghost use Rattle.dcc_refinement.specs.Laws.{RefinedAgree};

/// Coarse procedures, with the types of their points, their locations and the words of the stack; fine procedures over
/// finer points; and how the fine ones stand for the coarse.
pub trait TwoProcedures {
    ghost point: { Type 0 };

    ghost location: { Type 0 };

    ghost word: { Type 0 };

    ghost fine_point: { Type 0 };

    ghost fine_location: { Type 0 };

    ghost fine_word: { Type 0 };

    ghost coarse: { Procedures point location word };

    ghost fine: { Procedures fine_point fine_location fine_word };

    ghost refinement: { Refinement point location word fine_point fine_location fine_word };
}

/// Where each coarse point is some finer points one after another, or none, and does what these do together, both
/// procedures change, preserve, want, take and give back the same.
pub fn refined_agree<P: TwoProcedures>()
    ensures { RefinedAgree P.coarse P.fine P.refinement }
{}
