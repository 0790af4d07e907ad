// What the product is, as definitions and theorems. Each function here only bears a theorem, so that the check asks for its
// proof.
#![tactic(auto)]

ghost use Rattle.model.specs.Settled.{NumbersTell, Settled};
ghost use Rattle.model.specs.Traces.{FilesTell};

// Which refusals apply settles whether a call is served and which refusal it answers; refusals and causes are told apart by
// their numbers.
pub fn refusals_are_settled()
    ensures numbers { NumbersTell }
    ensures answers { Settled }
{}

// A trace file tells its records: no two lists of records have the same file.
pub fn files_tell_their_records()
    ensures { FilesTell }
{}
