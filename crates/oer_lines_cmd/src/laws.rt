//! Laws of the messages that stand behind their lengths, and of those that stand right behind one another.
ghost use Rattle.oer_lines_cmd.specs.Laws.{FramesAreOne, LongIsAsInARun};
ghost use Rattle.oer_lines_cmd.specs.StreamLaws.{MessagesAreOne, NoneIsRejected};

/// Octets are their frames one after the other, and no others.
pub fn frames_are_one()
    ensures { FramesAreOne }
{}

/// A message longer than the limit is answered by its length as a run with its octets answers, where that reads all of them first.
pub fn long_is_as_in_a_run()
    ensures { LongIsAsInARun }
{}

/// Octets are their messages one right behind the other, and no others, up to where none begins.
pub fn messages_are_one()
    ensures { MessagesAreOne }
{}

/// Octets at whose front no message stands are rejected by each task.
pub fn none_is_rejected()
    ensures { NoneIsRejected }
{}
