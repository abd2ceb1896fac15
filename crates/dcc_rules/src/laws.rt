//! Laws of the forms. Each function only states a law by its contract, and does nothing.

ghost use Rattle.dcc_rules.specs.Laws.{ToldFormsStand};

/// A well-formed expression that has a form by the widths that it tells has it under the widths of temporaries.
pub fn told_forms_stand()
    ensures { ToldFormsStand }
{}
