// What is written is read again as itself, and how cases, labels and words are spelled.
ghost use Rattle.plugin_messages.specs.RoundTrip.{HostReadsBack, PluginReadsBack};
ghost use Rattle.plugin_messages.specs.Format.{TablesAreSpelled, ObjectsAreReadWhole};
ghost use Rattle.plugin_messages.specs.Spelling.{LabelsAreSpelled, KindsAreSpelled, SeveritiesAreSpelled};

/// The payload of each message of either side is read as that message.
pub fn written_messages_are_read_again()
    ensures host { HostReadsBack }
    ensures plugin { PluginReadsBack }
{}

/// The tables have the labels of the format, and each object in them is checked to its end.
pub fn tables_are_spelled()
    ensures tables { TablesAreSpelled }
    ensures depth { ObjectsAreReadWhole }
{}

/// Each constant and each row of the tables has the text of the format.
pub fn words_are_spelled()
    ensures labels { LabelsAreSpelled }
    ensures kinds { KindsAreSpelled }
    ensures severities { SeveritiesAreSpelled }
{}
