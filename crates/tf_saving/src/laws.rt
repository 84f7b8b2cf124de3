//! The laws of all runs. Each function is empty; its clauses are what is proved.
ghost use Rattle.tf_saving.specs.Laws.{InitialIsStable, NothingIsLost, SuccessIsDurable};
ghost use Rattle.tf_saving.specs.Laws.{UnfailingSaveSucceeds, ErrorsChangeNothing};
ghost use Rattle.tf_saving.specs.Laws.{LateRecoversToNew, FailureIsNotInPlace, RecoveryEnds};
ghost use Rattle.tf_saving.specs.Laws.{StrayIsNotAdopted, UnadoptableIsNotAdopted};
ghost use Rattle.tf_saving.specs.OtherPrograms.{ChangedTextIsKept, ForeignFileIsNotRenamed};
ghost use Rattle.tf_saving.specs.OtherPrograms.{EditIsKept};

/// Wherever a save and the recoveries after it are interrupted, whichever of their calls fail, and
/// whatever a power loss leaves: the next command that recovers finds text and journal both old or
/// both new.
pub fn nothing_is_lost()
    ensures initial { InitialIsStable }
    ensures interrupted { NothingIsLost }
{}

/// A save that reports success has replaced both files, and no power loss undoes it. A save of
/// which no call fails succeeds.
pub fn a_success_is_durable()
    ensures durable { SuccessIsDurable }
    ensures unfailing { UnfailingSaveSucceeds }
{}

/// A save that reports an error, or that no new file can replace the old one, has left both files
/// as they were; after `Late` the next recovery finds both new. A call that fails for another
/// reason than `CannotReplace` never leads to writing in place.
pub fn an_error_changes_nothing()
    ensures error { ErrorsChangeNothing }
    ensures late { LateRecoversToNew }
    ensures not_in_place { FailureIsNotInPlace }
{}

/// A new journal that is found alone replaces the journal only if it may be adopted.
pub fn a_stray_is_not_adopted()
    ensures stray { StrayIsNotAdopted }
    ensures unadoptable { UnadoptableIsNotAdopted }
{}

/// What another program writes to the text at any call up to the comparison stays, and so does the
/// journal; the save ends in an error. A new file that this command did not create replaces
/// nothing.
pub fn an_edit_is_kept()
    ensures changed { ChangedTextIsKept }
    ensures foreign { ForeignFileIsNotRenamed }
    ensures edit { EditIsKept }
{}

/// A recovery of which no call fails ends, whatever files it finds, and leaves no new file.
pub fn a_recovery_ends()
    ensures { RecoveryEnds }
{}
