//! What is written is read back: operators, orders, conditions, and all that follows the threads.
ghost use Rattle.loom_text.specs.Blocks.{BlocksReadBack};
ghost use Rattle.loom_text.specs.Phrases.{ExpressionsReadBack};
ghost use Rattle.loom_text.specs.Printing.{ConditionsReadBack};
ghost use Rattle.loom_text.specs.Readable.{QuestionsReadBack};
ghost use Rattle.loom_text.specs.Spelling.{OperatorsReadBack, OrdersReadBack};
ghost use Rattle.loom_text.specs.Whole.{TestsReadBack};

/// What is written for an operator is one sign, which is read as that operator.
pub fn operators_read_back()
    ensures { OperatorsReadBack }
{}

/// What is written for an order is one word, which is read as that order.
pub fn orders_read_back()
    ensures { OrdersReadBack }
{}

/// The tokens that are written for a condition are read as that condition, where its terms have names of their own, and it isn't
/// deeper or longer than what is read.
pub fn conditions_read_back()
    ensures { ConditionsReadBack }
{}

/// The tokens that are written for what follows the threads of a test are read as the same, where the test was read, and so meets
/// `IsReadable`.
pub fn questions_read_back()
    ensures { QuestionsReadBack }
{}

/// The tokens that are written for an expression are read as that expression, where its names lead to what they name, its orders are
/// ones that its operations may have, and it isn't deeper or longer than what is read.
pub fn expressions_read_back()
    ensures { ExpressionsReadBack }
{}

/// The tokens that are written for a thread's statements that were read are read as the same statements, but for their lines.
pub fn blocks_read_back()
    ensures { BlocksReadBack }
{}

/// The tokens that are written for a test that was read are read as the same test, but for the lines of its statements.
pub fn tests_read_back()
    ensures { TestsReadBack }
{}
