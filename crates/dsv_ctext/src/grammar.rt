// What the texts of expressions are read as.
ghost use Rattle.dsv_ctext.specs.Law.{ExpressionsReadBack, ExpressionsAreSpelled};

/// An expression is read back from its tokens, and no two have the same.
pub fn expressions_read_back()
    ensures { ExpressionsReadBack }
{}

/// The text of an expression is that of its tokens.
pub fn expressions_are_spelled()
    ensures { ExpressionsAreSpelled }
{}
