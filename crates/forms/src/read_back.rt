// What prints as an operation reads back to it.
ghost use Rattle.plain_model.specs.Printed.{nest_op_text, line_op_text, side_text};
ghost use Rattle.forms_model.specs.Operations.{operation_at};
ghost use Rattle.forms_model.specs.ReadBack.{ReadsBack, ReadsBackAlone};

use trades::trade::Trade;

// States, for any trade, that the printed text of every operation reads back to that operation: wherever it stands in
// a line, and as all that a line has. There is nothing to run.
pub fn operations_read_back<T: Trade>()
    ensures anywhere { ReadsBack (side_text (nest_op_text T.Key.bytes) (line_op_text T.Element.bytes)) (operation_at T.rules) }
    ensures alone { ReadsBackAlone (side_text (nest_op_text T.Key.bytes) (line_op_text T.Element.bytes)) (operation_at T.rules) }
{}
