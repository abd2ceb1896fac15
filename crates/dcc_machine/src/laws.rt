//! Laws of the machine's steps, for every processor, operation and state. The functions do nothing: their contracts are
//! proved for all.

ghost use Rattle.dcc_machine.specs.StateForm.{StartsAreStates, StepsKeepStates};
ghost use Rattle.dcc_machine.specs.AlikeLaws.{WhatIsMadeAlikeIsAlike, WhatIsUsedAlikeShowsAlike};
ghost use Rattle.dcc_machine.specs.AlikeLaws.{OneLocationChangesWhatIsMadeOfIt};
ghost use Rattle.dcc_machine.specs.LocationLaws.{WhatIsNotWrittenStays};
ghost use Rattle.dcc_machine.specs.MemoryLaws.{StepsActByAccesses, MemoryChangesAtWritesAlone, BytesAreAlikeOrLeft};
ghost use Rattle.dcc_machine.specs.MemoryLaws.{AccessesDependOnReads};

/// The accesses of an operation tell what its step takes from memory and does to it, and with the instruction's bytes
/// those of a step do.
pub fn steps_act_by_accesses()
    ensures { StepsActByAccesses }
{}

/// Memory changes at the writes alone.
pub fn memory_changes_at_writes_alone()
    ensures { MemoryChangesAtWritesAlone }
{}

/// Where an act finds two memories that agree at what it reads, each byte is alike after it, or was left alone.
pub fn bytes_are_alike_or_left()
    ensures { BytesAreAlikeOrLeft }
{}

/// The accesses themselves depend on memory at what they read alone.
pub fn accesses_depend_on_reads()
    ensures { AccessesDependOnReads }
{}

/// Each start of an image on bytes has eight registers, four segment registers and all bytes of memory, and in each
/// what it has room for.
pub fn starts_are_states()
    ensures { StartsAreStates }
{}

/// Steps keep the number of registers and bytes, and what each has room for.
pub fn steps_keep_states()
    ensures { StepsKeepStates }
{}

/// What an operation doesn't write, by the table of writes, stays as it was. The own step of a CALL writes SP alone.
pub fn what_is_not_written_stays()
    ensures { WhatIsNotWrittenStays }
{}

/// Two states that agree in all that a location is made of agree in it after the step.
pub fn what_is_made_alike_is_alike()
    ensures { WhatIsMadeAlikeIsAlike }
{}

/// Two states that agree in all that an operation uses agree after it in all that is no location, but for a pushed
/// word.
pub fn what_is_used_alike_shows_alike()
    ensures { WhatIsUsedAlikeShowsAlike }
{}

/// Changing one location changes only what is made of it, itself where it isn't surely written, and what it is used
/// for.
pub fn one_location_changes_what_is_made_of_it()
    ensures { OneLocationChangesWhatIsMadeOfIt }
{}
