ghost use Rattle.commands.specs.Laws.{ReadsBack, StreamsReadBack, StreamsWriteBack, WritesBack};

/// The bytes of a well-formed command read back as that command, with what follows left over.
pub fn commands_read_back()
    ensures { ReadsBack }
{}

/// A command that was read has the very bytes that it was read from.
pub fn commands_write_back()
    ensures { WritesBack }
{}

/// The bytes of well-formed commands, one after another, read back as those commands and nothing more.
pub fn streams_read_back()
    ensures { StreamsReadBack }
{}

/// A stream that was read to its end is the bytes of its commands.
pub fn streams_write_back()
    ensures { StreamsWriteBack }
{}
