// Laws of sites: a call of each brings it in as a fact.

ghost use Rattle.expansion_model.specs.Spans.{SitesLieApart};
ghost use Rattle.expansion_model.specs.Laws.{VisitsRepeat, AskedRequestsGrow, AnswersByAskedAlone, AskedByRules, RulesAreAsked, RequestsAreWritable, EditsCanBeMade, EditsAreOfSites, WordsAreNotUnique};
ghost use Rattle.expansion_model.specs.Readable.{AsksAreReadable};

/// What is replaced of an accepted text lies in it: each use that is asked and each attribute of a macro holds a
/// byte, and no two share one.
pub fn sites_lie_apart()
    ensures { SitesLieApart }
{}

/// The texts of what is asked at the sites of an accepted text are UTF-8, where the module and the type of each macro
/// are.
pub fn asks_are_readable()
    ensures { AsksAreReadable }
{}

/// The visit of a buffer is what its sites give, each reply being visited in the same way: however deep replies are
/// nested, none is left out.
pub fn visits_repeat()
    ensures { VisitsRepeat }
{}

/// What is asked stays asked when outcomes are added.
pub fn asked_requests_grow()
    ensures { AskedRequestsGrow }
{}

/// The answer depends on the outcomes of what is asked alone.
pub fn answers_by_asked_alone()
    ensures { AnswersByAskedAlone }
{}

/// What is asked are the requests of the uses in all buffers that are reached.
pub fn asked_by_rules()
    ensures asked { AskedByRules }
    ensures rules { RulesAreAsked }
{}

/// What is asked can be written as a message.
pub fn requests_are_writable()
    ensures { RequestsAreWritable }
{}

/// The edits of a source can be made, and replace what its sites do.
pub fn edits_replace_sites()
    ensures made { EditsCanBeMade }
    ensures spans { EditsAreOfSites }
{}

/// No word of an accepted file is a unique name of a request, so what a macro makes of its own is not there yet.
pub fn words_are_not_unique()
    ensures { WordsAreNotUnique }
{}
