// The payloads of an exchange, byte for byte. Each is a function, so that a proof need not carry its bytes.

pub(super) fn greeting() -> &'static str {
    "{\"getCapability\":{\"capability\":{\"protocolVersion\":7}}}"
}

pub(super) fn greeted() -> &'static str {
    "{\"getCapabilityResult\":{\"capability\":{\"protocolVersion\":7}}}"
}

pub(super) fn reply_payload() -> &'static str {
    "{\"expandMacroResult\":{\"diagnostics\":[],\"expandedSource\":\"(a + b, \\\"a + b\\\")\"}}"
}

pub(super) fn use_payload() -> &'static str {
    "{\"expandFreestandingMacro\":{\"discriminator\":\"$sX145e0_E\",\"macro\":{\"moduleName\":\"SampleMacros\",\"name\":\"stringify\",\"typeName\":\"StringifyMacro\"},\"macroRole\":\"expression\",\"syntax\":{\"kind\":\"expression\",\"location\":{\"column\":9,\"fileID\":\"main/r.swift\",\"fileName\":\"r.swift\",\"line\":2,\"offset\":145},\"source\":\"#stringify(a + b)\"}}}"
}

pub(super) fn use_without_location() -> &'static str {
    "{\"expandFreestandingMacro\":{\"discriminator\":\"$sX145e0_E\",\"macro\":{\"moduleName\":\"SampleMacros\",\"name\":\"stringify\",\"typeName\":\"StringifyMacro\"},\"macroRole\":\"expression\",\"syntax\":{\"kind\":\"expression\",\"source\":\"#stringify(a + b)\"}}}"
}

pub(super) fn attached_payload() -> &'static str {
    "{\"expandAttachedMacro\":{\"attributeSyntax\":{\"kind\":\"attribute\",\"location\":{\"column\":1,\"fileID\":\"main/r.swift\",\"fileName\":\"r.swift\",\"line\":1,\"offset\":0},\"source\":\"@X\"},\"conformanceListSyntax\":{\"kind\":\"declaration\",\"location\":{\"column\":1,\"fileID\":\"main/r.swift\",\"fileName\":\"r.swift\",\"line\":1,\"offset\":0},\"source\":\"struct Placeholder: Equatable {}\"},\"declSyntax\":{\"kind\":\"declaration\",\"location\":{\"column\":1,\"fileID\":\"main/r.swift\",\"fileName\":\"r.swift\",\"line\":1,\"offset\":0},\"source\":\"@X struct S {}\"},\"discriminator\":\"$sX0x0_E\",\"extendedTypeSyntax\":{\"kind\":\"type\",\"location\":{\"column\":11,\"fileID\":\"main/r.swift\",\"fileName\":\"r.swift\",\"line\":1,\"offset\":10},\"source\":\"S\"},\"macro\":{\"moduleName\":\"A\",\"name\":\"X\",\"typeName\":\"XMacro\"},\"macroRole\":\"extension\"}}"
}

pub(super) fn noted_payload() -> &'static str {
    "{\"loadPluginLibraryResult\":{\"diagnostics\":[{\"fixIts\":[],\"highlights\":[],\"message\":\"m\",\"notes\":[{\"message\":\"n\",\"position\":{\"fileName\":\"g\",\"offset\":2}}],\"position\":{\"fileName\":\"f\",\"offset\":1},\"severity\":\"remark\"}],\"loaded\":true}}"
}

// A line for each payload: the reason or the label, a space, the payload.
pub(super) fn bad_replies() -> &'static str {
    "NotJson {\n\
     NotJson {} {}\n\
     NoCase []\n\
     NoCase {}\n\
     NoCase {\"expandMacroResult\":5}\n\
     NoCase {\"expandMacroResult\":{},\"other\":null}\n\
     UnknownCase {\"foo\":{}}\n\
     UnknownCase {\"getCapability\":{}}\n\
     capability {\"getCapabilityResult\":{}}\n\
     capability {\"getCapabilityResult\":{\"capability\":[7]}}\n\
     protocolVersion {\"getCapabilityResult\":{\"capability\":{\"protocolVersion\":\"7\"}}}\n\
     diagnostics {\"expandMacroResult\":{}}\n\
     diagnostics {\"expandMacroResult\":{\"diagnostics\":null}}\n\
     diagnostics {\"expandMacroResult\":{\"diagnostics\":5}}\n\
     diagnostics {\"expandMacroResult\":{\"diagnostics\":[5]}}\n\
     expandedSource {\"expandMacroResult\":{\"diagnostics\":5,\"expandedSource\":5}}\n\
     message {\"expandMacroResult\":{\"diagnostics\":[{}]}}\n\
     severity {\"expandMacroResult\":{\"diagnostics\":[{\"message\":\"m\",\"severity\":\"fatal\"}]}}\n\
     offset {\"expandMacroResult\":{\"diagnostics\":[{\"message\":\"m\",\"severity\":\"error\",\"position\":{\"fileName\":\"f\",\"offset\":9223372036854775808}}]}}\n\
     highlights {\"expandMacroResult\":{\"diagnostics\":[{\"message\":\"m\",\"severity\":\"error\",\"position\":{\"fileName\":\"f\",\"offset\":0}}]}}\n\
     fileName {\"expandMacroResult\":{\"diagnostics\":[{\"message\":\"m\",\"severity\":\"error\",\"position\":{\"fileName\":\"f\",\"offset\":0},\"highlights\":[],\"notes\":[{\"message\":\"n\",\"position\":{}}]}]}}\n\
     fixIts {\"expandMacroResult\":{\"diagnostics\":[{\"message\":\"m\",\"severity\":\"error\",\"position\":{\"fileName\":\"f\",\"offset\":0},\"highlights\":[],\"notes\":[]}]}}\n\
     loaded {\"loadPluginLibraryResult\":{\"loaded\":1,\"diagnostics\":[]}}\n\
     protocolVersion {\"getCapabilityResult\":{\"capability\":{\"protocolVersion\":1.0}}}\n\
     protocolVersion {\"getCapabilityResult\":{\"capability\":{\"protocolVersion\":-0}}}\n\
     protocolVersion {\"getCapabilityResult\":{\"capability\":{\"protocolVersion\":7e0}}}\n\
     protocolVersion {\"getCapabilityResult\":{\"capability\":{\"protocolVersion\":9223372036854775808}}}\n\
     protocolVersion {\"getCapabilityResult\":{\"capability\":{\"protocolVersion\":-9223372036854775809}}}\n\
     protocolVersion {\"getCapabilityResult\":{\"capability\":{\"protocolVersion\":18446744073709551616}}}\n\
     NotJson {\"getCapabilityResult\":{\"capability\":{\"protocolVersion\":1e999}}}\n\
     NotJson {\"getCapabilityResult\":{\"capability\":{\"protocolVersion\":01}}}\n\
     NotJson {\"getCapabilityResult\":{\"capability\":{\"protocolVersion\":+1}}}\n\
     NotJson {\"getCapabilityResult\":{\"capability\":{\"protocolVersion\":\"\\ud800\"}}}"
}

pub(super) fn bad_requests() -> &'static str {
    "UnknownCase {\"getCapabilityResult\":{}}\n\
     capability {\"getCapability\":{}}\n\
     moduleName {\"loadPluginLibrary\":{\"libraryPath\":\"p\"}}\n\
     macro {\"expandFreestandingMacro\":{\"macroRole\":5}}\n\
     typeName {\"expandFreestandingMacro\":{\"macro\":{\"moduleName\":\"M\",\"name\":\"n\"}}}\n\
     macroRole {\"expandFreestandingMacro\":{\"macro\":{\"moduleName\":\"M\",\"typeName\":\"T\",\"name\":\"n\"},\"macroRole\":\"body\"}}\n\
     kind {\"expandFreestandingMacro\":{\"macro\":{\"moduleName\":\"M\",\"typeName\":\"T\",\"name\":\"n\"},\"macroRole\":\"peer\",\"discriminator\":\"d\",\"syntax\":{\"kind\":\"token\"}}}\n\
     location {\"expandFreestandingMacro\":{\"macro\":{\"moduleName\":\"M\",\"typeName\":\"T\",\"name\":\"n\"},\"macroRole\":\"peer\",\"discriminator\":\"d\",\"syntax\":{\"kind\":\"type\",\"source\":\"s\",\"location\":[]}}}\n\
     line {\"expandFreestandingMacro\":{\"macro\":{\"moduleName\":\"M\",\"typeName\":\"T\",\"name\":\"n\"},\"macroRole\":\"peer\",\"discriminator\":\"d\",\"syntax\":{\"kind\":\"type\",\"source\":\"s\",\"location\":{\"fileID\":\"i\",\"fileName\":\"f\",\"offset\":0,\"line\":4294967296}}}}\n\
     declSyntax {\"expandAttachedMacro\":{\"macro\":{\"moduleName\":\"M\",\"typeName\":\"T\",\"name\":\"n\"},\"macroRole\":\"peer\",\"discriminator\":\"d\",\"attributeSyntax\":{\"kind\":\"attribute\",\"source\":\"@P\"},\"declSyntax\":null}}"
}

// What JSON itself lets pass: a line for each payload, its version first.
pub(super) fn odd_versions() -> &'static str {
    "9223372036854775807 {\"getCapabilityResult\":{\"capability\":{\"protocolVersion\":9223372036854775807}}}\n\
     -9223372036854775808 {\"getCapabilityResult\":{\"capability\":{\"protocolVersion\":-9223372036854775808}}}\n\
     7 {\"getCapabilityResult\":{\"capability\":{\"protocolVersion\":1.5,\"protocolVersion\":7}}}\n\
     8 {\"getCapabilityResult\":{\"capability\":5,\"capability\":{\"protocolVersion\":8}}}\n\
     7 {\"getCapabilityResult\":{\"capability\":null},\"getCapabilityResult\":{\"capability\":{\"protocolVersion\":7,\"y\":1.5},\"x\":null}}"
}
