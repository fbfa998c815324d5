ghost use Rattle.stream.specs.Apart.{LinesTellApart};
ghost use Rattle.stream.specs.Laws.{EveryWholeStreamIsItsCommands};

/// Two different answers, or two places, never print the same line.
pub fn lines_tell_apart<V>()
    ensures { LinesTellApart V }
{}

/// What stands in a stream that is whole commands are these commands, and nothing more.
pub fn whole_streams_are_their_commands()
    ensures { EveryWholeStreamIsItsCommands }
{}
