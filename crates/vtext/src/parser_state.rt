//! The states of the parser.

/// What a range is written in.
#[derive(Clone, Copy, Debug, PartialEq, Eq)]
pub enum Declared {
    /// A declaration of the inline form of a header.
    InlinePort,
    /// An item with a direction.
    Port,
    /// An item without one.
    Net,
}

/// Which number of a delay. The first one is each delay where no other follows.
#[derive(Clone, Copy, Debug, PartialEq, Eq)]
pub enum DelayNumber {
    Rise,
    Fall,
    /// The turn-off delay.
    Off,
}

/// What a terminal with an index is written in.
#[derive(Clone, Copy, Debug, PartialEq, Eq)]
pub enum Indexed {
    /// A gate instance.
    Gate,
    /// A connection by order.
    Ordered,
    /// A connection by name.
    Named,
}

/// A point within a line of the grammar: what has been read of it, and so what may come next. Nothing in the grammar
/// nests, so there is no stack.
#[derive(Clone, Copy, Debug, PartialEq, Eq)]
pub enum ParserState {
    /// Outside modules.
    Outside,
    /// Behind `module`.
    ModuleName,
    /// Behind a module's name.
    ModuleHead,
    /// Behind the `(` of a header.
    Header,
    /// Behind a port's name in the older form.
    OlderNext,
    /// Behind a comma in the older form.
    OlderName,
    /// Behind a direction in the inline form.
    InlineStart,
    /// Behind a net kind in the inline form.
    InlineKind,
    /// Behind a range in the inline form.
    InlineName,
    /// Behind a port's name in the inline form.
    InlineNext,
    /// Behind a comma in the inline form.
    InlineMore,
    /// Behind the `)` of a header.
    HeaderEnd,
    /// Between the items of a module.
    Items,
    /// Behind the direction of an item.
    PortStart,
    /// Behind the net kind of an item with a direction.
    PortKind,
    /// Where a port declaration wants a name.
    PortName,
    /// Behind a name of a port declaration.
    PortNext,
    /// Behind the net kind of an item.
    NetStart,
    /// Where a net declaration wants a name.
    NetName,
    /// Behind a name of a net declaration.
    NetNext,
    /// Behind the `[` of a range.
    LeftBound(Declared),
    /// Behind the left bound of a range.
    BoundColon(Declared),
    /// Behind the `:` of a range.
    RightBound(Declared),
    /// Behind the right bound of a range.
    RangeEnd(Declared),
    /// Behind the word of a gate kind.
    GateStart,
    /// Behind `#`.
    Delay,
    /// Behind `#(`.
    RiseDelay,
    /// Behind the first number of a delay in parentheses.
    RiseEnd,
    /// Behind the comma of a delay.
    FallDelay,
    /// Behind the second number of a delay.
    FallEnd,
    /// Behind the second comma of a delay.
    OffDelay,
    /// Behind the third number of a delay.
    OffEnd,
    /// Where a gate instance begins.
    InstanceStart,
    /// Behind the name of a gate instance.
    InstanceOpen,
    /// Where a terminal is wanted.
    TerminalStart,
    /// Behind a terminal.
    TerminalEnd,
    /// Behind a name that an index follows.
    IndexStart(Indexed),
    /// Behind the `[` of an index.
    Index(Indexed),
    /// Behind the number of an index.
    IndexEnd(Indexed),
    /// Behind the `)` of a gate instance.
    InstanceEnd,
    /// Where the name of an instance of a module is wanted.
    ModuleInstanceName,
    /// Behind the name of an instance of a module.
    ModuleInstanceOpen,
    /// Behind the `(` of port connections.
    Connections,
    /// Behind a comma of connections by order.
    OrderedStart,
    /// Behind a connection by order.
    OrderedEnd,
    /// Behind a comma of connections by name.
    NamedStart,
    /// Behind the `.` of a connection by name.
    NamedPort,
    /// Behind the port of a connection by name.
    NamedOpen,
    /// Behind the `(` of a connection by name.
    NamedTerminal,
    /// Behind the terminal of a connection by name.
    NamedClose,
    /// Behind a connection by name.
    NamedEnd,
    /// Behind the `)` of an instance of a module.
    ModuleInstanceEnd,
}
