//! What holds of every form.

ghost use Rattle.ssa_form.specs.Laws.{ScriptsCanBeTaken, EarlierPartsStay};

/// Where a part's thread is created and its instance's run uses a whole script, there are inputs under which the part takes that script,
/// and the inputs of other parts are as they were.
pub fn scripts_can_be_taken()
    ensures { ScriptsCanBeTaken }
{}

/// Other numbers for a part change neither what it begins with nor what the parts before it do.
pub fn earlier_parts_stay()
    ensures { EarlierPartsStay }
{}
