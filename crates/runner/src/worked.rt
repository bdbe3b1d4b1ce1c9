// Worked rows of the definitions.
ghost use Rattle.runner.specs.Rows.{WorkedRows};

// Some texts by the definitions: their bounds, their refusals and their sheets.
pub fn worked_rows()
    ensures { WorkedRows }
{}
