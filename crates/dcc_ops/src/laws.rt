//! Laws of what operations become, for every relation between the machine's states and the run's. The functions do
//! nothing: their contracts are proved for all.

ghost use Rattle.dcc_ops.specs.Coupling.{Relation, IsCoupling};
ghost use Rattle.dcc_ops.specs.Performed.{OperationsArePerformed, TestsDecide, RegistersStand};
ghost use Rattle.dcc_ops.specs.Divisions.{DivisionsArePerformed};
ghost use Rattle.dcc_ops.specs.Tables.{TablesAreRead};
ghost use Rattle.dcc_ops.specs.Held.{ResultsAreHeld};
ghost use Rattle.dcc_ops.specs.FlagReading.{OperationsSetFlagsPlainly};

/// Some relation between the machine's states and the run's, and the one after an operation.
pub trait SomeCoupling {
    ghost before: { Relation };

    ghost after: { Relation };
}

/// The statements of each operation that neither calls, returns, divides nor uses the stack do to the run what the
/// operation does to the machine, wherever its operands stand.
pub fn operations_are_performed<C: SomeCoupling>()
    requires before { IsCoupling C.before }
    requires after { IsCoupling C.after }
    ensures { OperationsArePerformed C.before C.after }
{}

/// The statements of a division whose upper half is prepared do to the run what the division does to the machine, or
/// both end by a divide fault.
pub fn divisions_are_performed<C: SomeCoupling>()
    requires { IsCoupling C.before }
    ensures { DivisionsArePerformed C.before }
{}

/// The address of the byte that XLAT takes is its offset, and where the run has the byte there, the statements do what
/// XLAT does.
pub fn tables_are_read<C: SomeCoupling>()
    requires { IsCoupling C.before }
    ensures { TablesAreRead C.before }
{}

/// Where the destination stands at a place where nothing is stored, as SP does, the statements set the flags, and a
/// temporary has the result.
pub fn results_are_held<C: SomeCoupling>()
    requires { IsCoupling C.before }
    ensures { ResultsAreHeld C.before }
{}

/// The test of an operation with two successors tells where the machine goes on.
pub fn tests_decide<C: SomeCoupling>()
    requires { IsCoupling C.before }
    ensures { TestsDecide C.before }
{}

/// General registers, their halves and constants stand at their places.
pub fn registers_stand<C: SomeCoupling>()
    requires { IsCoupling C.before }
    ensures { RegistersStand C.before }
{}

/// Where a statement of an operation sets a flag, it reads flags as the negation of one or as an arm of a choice alone,
/// and loads from plain addresses.
pub fn operations_set_flags_plainly()
    ensures { OperationsSetFlagsPlainly }
{}
