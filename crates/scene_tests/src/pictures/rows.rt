//! Documents, the text of the plan of each, and the run that a page of it has.
use scene::DocRefusal;

/// A document that is no less than a scene, the text of its plan, and the run of its page.
pub struct Row {
    pub name: &'static str,
    pub document: &'static str,
    pub plan: &'static str,
    pub run: &'static str,
}

/// The examples, and documents of one thing each.
pub const ROWS: [Row; 21] = [
    Row {
        name: "bonds",
        document: "{\"next\":5,\"entities\":[{\"id\":0,\"parts\":{\"hp\":1}},{\"id\":1,\"parts\":{\"bond\":0}},{\"id\":2,\"parts\":{\"bond\":1,\"pos\":4}},{\"id\":3,\"parts\":{\"owner\":4}},{\"id\":4,\"parts\":{\"hp\":7}}],\n \"systems\":[{\"kind\":\"decay\",\"name\":\"d\"},{\"kind\":\"reap\",\"after\":[\"d\"]}],\"frames\":1}",
        plan: "1\n2\n",
        run: "{\"frames\":1,\"asked\":1,\"refused\":null,\"entities\":[[\"0\",0,1,{\"hp\":[0,1]}],[\"1\",0,1,{\"bond\":[0,0]}],[\"2\",0,1,{\"bond\":[0,1],\"pos\":[0,4]}],[\"3\",0,-1,{\"owner\":[0,4]}],[\"4\",0,-1,{\"hp\":[0,7,\"-1\"]}]],\"globals\":{},\"told\":[[1,\"command 1, reap at place 2: 0 died\",\"command 1, reap at place 2: 1 died with 0, to whom it was bound by bond\",\"command 1, reap at place 2: 2 died with 0: it was bound by bond to 1\"]]}",
    },
    Row {
        name: "commands",
        document: "{\"next\":2,\"entities\":[{\"id\":0,\"parts\":{\"owner\":1}},{\"id\":1,\"parts\":{\"hp\":4,\"pos\":1}}],\"frames\":1,\n \"commands\":[[{\"spawn\":{\"pos\":3}},{\"put\":{\"id\":0,\"kind\":\"owner\",\"value\":2}},{\"kill\":1},{\"take\":{\"id\":2,\"kind\":\"pos\"}},{\"kill\":1}]]}",
        plan: "",
        run: "{\"frames\":1,\"asked\":1,\"refused\":null,\"entities\":[[\"0\",0,-1,{\"owner\":[0,1,\"1\"]}],[\"1\",0,1,{\"hp\":[0,4],\"pos\":[0,1]}],[\"2\",1,-1,{}]],\"globals\":{},\"told\":[[1,\"command 1, the document: 2 is born with {\\\"pos\\\":3}\",\"command 2, the document: put owner of 0: 1 -> 2\",\"command 3, the document: 1 died\",\"command 4, the document: took pos of 2: 3 -> nothing\",\"command 5, the document: a kill of 1 is skipped: 1 is not alive\"]]}",
    },
    Row {
        name: "drift",
        document: "{\"next\":2,\"entities\":[{\"id\":0,\"parts\":{\"pos\":5,\"vel\":2}},{\"id\":1,\"parts\":{\"pos\":1}}],\"systems\":[{\"kind\":\"drift\"}],\"frames\":3}",
        plan: "1\n",
        run: "{\"frames\":3,\"asked\":3,\"refused\":null,\"entities\":[[\"0\",0,-1,{\"pos\":[0,5,\"2*3\"],\"vel\":[0,2]}],[\"1\",0,-1,{\"pos\":[0,1]}]],\"globals\":{},\"told\":[]}",
    },
    Row {
        name: "empty",
        document: "{\"next\":0,\"entities\":[],\"frames\":3}",
        plan: "",
        run: "{\"frames\":0,\"asked\":3,\"refused\":null,\"entities\":[],\"globals\":{},\"told\":[]}",
    },
    Row {
        name: "idle",
        document: "{\"next\":0,\"entities\":[],\"frames\":4294967295}",
        plan: "",
        run: "{\"frames\":0,\"asked\":4294967295,\"refused\":null,\"entities\":[],\"globals\":{},\"told\":[]}",
    },
    Row {
        name: "life",
        document: "{\"next\":2,\"entities\":[{\"id\":0,\"parts\":{\"hp\":11,\"pos\":5,\"vel\":2}},{\"id\":1,\"parts\":{\"hp\":1,\"owner\":0}}],\n \"systems\":[{\"kind\":\"decay\",\"name\":\"d\"},{\"kind\":\"reap\",\"after\":[\"d\"]},{\"kind\":\"bud\",\"after\":[\"d\"]},{\"kind\":\"drift\"}],\"frames\":1}",
        plan: "1 | 4\n2 | 3\n",
        run: "{\"frames\":1,\"asked\":1,\"refused\":null,\"entities\":[[\"0\",0,-1,{\"hp\":[0,11,\"-1\"],\"pos\":[0,5,\"2\"],\"vel\":[0,2]}],[\"1\",0,1,{\"hp\":[0,1],\"owner\":[0,0]}],[\"2\",1,-1,{\"hp\":[1,1],\"pos\":[1,7]}]],\"globals\":{},\"told\":[[1,\"command 1, reap at place 2: 1 died\",\"command 2, bud at place 3: 2 is born with {\\\"hp\\\":1,\\\"pos\\\":7}\"]]}",
    },
    Row {
        name: "overflow",
        document: "{\"next\":1,\"entities\":[{\"id\":0,\"parts\":{\"pos\":9223372036854775807,\"vel\":1}}],\"systems\":[{\"kind\":\"drift\"}],\"frames\":3}",
        plan: "1\n",
        run: "{\"frames\":0,\"asked\":3,\"refused\":[1,\"System 1: overflow\"],\"entities\":[[\"0\",0,-1,{\"pos\":[0,\"9223372036854775807\"],\"vel\":[0,1]}]],\"globals\":{},\"told\":[[1,\"drift at place 1 refused\"]]}",
    },
    Row {
        name: "pull",
        document: "{\"next\":1,\"entities\":[{\"id\":0,\"parts\":{\"vel\":1}}],\"globals\":{\"g\":2},\"systems\":[{\"kind\":\"pull\"}],\"frames\":1}",
        plan: "1\n",
        run: "{\"frames\":1,\"asked\":1,\"refused\":null,\"entities\":[[\"0\",0,-1,{\"vel\":[0,1,\"2\"]}]],\"globals\":{\"g\":[0,2]},\"told\":[]}",
    },
    Row {
        name: "whole",
        document: "{\"next\":2,\n \"entities\":[{\"id\":0,\"parts\":{\"hp\":11,\"pos\":5,\"vel\":2}},{\"id\":1,\"parts\":{\"hp\":1,\"owner\":0}}],\n \"globals\":{\"g\":1},\n \"systems\":[{\"kind\":\"decay\",\"name\":\"d\"},{\"kind\":\"pull\"},{\"barrier\":true},{\"kind\":\"drift\"},{\"kind\":\"reap\",\"after\":[\"d\"]},{\"kind\":\"bud\",\"local\":true}],\n \"frames\":2,\n \"commands\":[[{\"put\":{\"id\":1,\"kind\":\"pos\",\"value\":7}}],[{\"spawn\":{\"owner\":0,\"vel\":3}}]],\n \"workers\":2,\"store\":\"dense\"}",
        plan: "1 | 2\n4 | 5\n",
        run: "{\"frames\":2,\"asked\":2,\"refused\":null,\"entities\":[[\"0\",0,-1,{\"hp\":[0,11,\"-1*2\"],\"pos\":[0,5,\"3 4\"],\"vel\":[0,2,\"1*2\"]}],[\"1\",0,1,{\"hp\":[0,1],\"owner\":[0,0]}],[\"2\",1,2,{\"hp\":[1,1],\"pos\":[1,8]}],[\"3\",2,-1,{\"owner\":[2,0],\"vel\":[2,3]}]],\"globals\":{\"g\":[0,1]},\"told\":[[1,\"command 1, the document: put pos of 1: nothing -> 7\",\"command 2, reap at place 5: 1 died\",\"command 3, bud at place 6: 2 is born with {\\\"hp\\\":1,\\\"pos\\\":8}\"],[2,\"command 1, the document: 3 is born with {\\\"owner\\\":0,\\\"vel\\\":3}\",\"command 2, reap at place 5: 2 died\"]]}",
    },
    Row {
        name: "a scene at rest",
        document: "{\"next\":1,\"entities\":[{\"id\":0,\"parts\":{\"pos\":-4}}]}",
        plan: "",
        run: "{\"frames\":0,\"asked\":0,\"refused\":null,\"entities\":[[\"0\",0,-1,{\"pos\":[0,-4]}]],\"globals\":{},\"told\":[]}",
    },
    Row {
        name: "a stop and a start",
        document: "{\"next\":1,\"entities\":[{\"id\":0,\"parts\":{\"hp\":1}}],\"frames\":4,\"commands\":[[{\"take\":{\"id\":0,\"kind\":\"hp\"}}],[],[{\"put\":{\"id\":0,\"kind\":\"hp\",\"value\":6}}],[{\"put\":{\"id\":0,\"kind\":\"hp\",\"value\":4}}]]}",
        plan: "",
        run: "{\"frames\":4,\"asked\":4,\"refused\":null,\"entities\":[[\"0\",0,-1,{\"hp\":[0,1,1,null,3,6,\"-2\"]}]],\"globals\":{},\"told\":[[1,\"command 1, the document: took hp of 0: 1 -> nothing\"],[3,\"command 1, the document: put hp of 0: nothing -> 6\"],[4,\"command 1, the document: put hp of 0: 6 -> 4\"]]}",
    },
    Row {
        name: "a pause",
        document: "{\"next\":1,\"entities\":[{\"id\":0,\"parts\":{\"vel\":3}}],\"frames\":3,\"commands\":[[{\"put\":{\"id\":0,\"kind\":\"vel\",\"value\":4}}],[],[{\"put\":{\"id\":0,\"kind\":\"vel\",\"value\":5}}]]}",
        plan: "",
        run: "{\"frames\":3,\"asked\":3,\"refused\":null,\"entities\":[[\"0\",0,-1,{\"vel\":[0,3,\"1\",3,5]}]],\"globals\":{},\"told\":[[1,\"command 1, the document: put vel of 0: 3 -> 4\"],[3,\"command 1, the document: put vel of 0: 4 -> 5\"]]}",
    },
    Row {
        name: "numbers that a script cannot count with",
        document: "{\"next\":1,\"entities\":[{\"id\":0,\"parts\":{\"pos\":9007199254740990,\"vel\":1}}],\"systems\":[{\"kind\":\"drift\"}],\"frames\":3}",
        plan: "1\n",
        run: "{\"frames\":3,\"asked\":3,\"refused\":null,\"entities\":[[\"0\",0,-1,{\"pos\":[0,9007199254740990,\"1\",2,\"9007199254740992\",3,\"9007199254740993\"],\"vel\":[0,1]}]],\"globals\":{},\"told\":[]}",
    },
    Row {
        name: "ids that a script cannot count with",
        document: "{\"next\":18446744073709551615,\"entities\":[{\"id\":18446744073709551614,\"parts\":{\"hp\":5}}],\"systems\":[{\"kind\":\"decay\"}],\"frames\":2}",
        plan: "1\n",
        run: "{\"frames\":2,\"asked\":2,\"refused\":null,\"entities\":[[\"18446744073709551614\",0,-1,{\"hp\":[0,5,\"-1*2\"]}]],\"globals\":{},\"told\":[]}",
    },
    Row {
        name: "one that reads what another writes",
        document: "{\"next\":0,\"entities\":[],\"globals\":{\"g\":0},\"systems\":[{\"kind\":\"pull\"},{\"kind\":\"drift\"},{\"kind\":\"decay\"}]}",
        plan: "1 | 3\n2\n",
        run: "{\"frames\":0,\"asked\":0,\"refused\":null,\"entities\":[],\"globals\":{\"g\":[0,0]},\"told\":[]}",
    },
    Row {
        name: "a barrier",
        document: "{\"next\":0,\"entities\":[],\"systems\":[{\"kind\":\"decay\"},{\"barrier\":true},{\"kind\":\"drift\"}]}",
        plan: "1\n3\n",
        run: "{\"frames\":0,\"asked\":0,\"refused\":null,\"entities\":[],\"globals\":{},\"told\":[]}",
    },
    Row {
        name: "one behind another",
        document: "{\"next\":0,\"entities\":[],\"systems\":[{\"kind\":\"drift\",\"name\":\"a\"},{\"kind\":\"decay\",\"after\":[\"a\"]}]}",
        plan: "1\n2\n",
        run: "{\"frames\":0,\"asked\":0,\"refused\":null,\"entities\":[],\"globals\":{},\"told\":[]}",
    },
    Row {
        name: "local systems have no place in the plan",
        document: "{\"next\":1,\"entities\":[{\"id\":0,\"parts\":{\"hp\":3}}],\"systems\":[{\"kind\":\"decay\",\"local\":true},{\"kind\":\"drift\"}],\"frames\":2}",
        plan: "2\n",
        run: "{\"frames\":2,\"asked\":2,\"refused\":null,\"entities\":[[\"0\",0,-1,{\"hp\":[0,3,\"-1*2\"]}]],\"globals\":{},\"told\":[]}",
    },
    Row {
        name: "born and dead",
        document: "{\"next\":1,\"entities\":[{\"id\":0,\"parts\":{}}],\"frames\":2,\"commands\":[[{\"spawn\":{\"pos\":1}},{\"spawn\":{\"pos\":2}},{\"kill\":1}],[{\"kill\":2},{\"kill\":0}]]}",
        plan: "",
        run: "{\"frames\":2,\"asked\":2,\"refused\":null,\"entities\":[[\"0\",0,2,{}],[\"2\",1,2,{\"pos\":[1,2]}]],\"globals\":{},\"told\":[[1,\"command 1, the document: 1 is born with {\\\"pos\\\":1}\",\"command 2, the document: 2 is born with {\\\"pos\\\":2}\",\"command 3, the document: 1 died\"],[2,\"command 1, the document: 2 died\",\"command 2, the document: 0 died\"]]}",
    },
    Row {
        name: "refused in the second frame",
        document: "{\"next\":2,\"entities\":[{\"id\":0,\"parts\":{\"owner\":1}},{\"id\":1,\"parts\":{\"hp\":2}}],\"systems\":[{\"kind\":\"decay\"}],\"frames\":3,\"commands\":[[],[{\"kill\":1}]]}",
        plan: "1\n",
        run: "{\"frames\":1,\"asked\":3,\"refused\":[2,\"GoneReference 0\"],\"entities\":[[\"0\",0,-1,{\"owner\":[0,1]}],[\"1\",0,-1,{\"hp\":[0,2,\"-1\"]}]],\"globals\":{},\"told\":[[2,\"entity 0 refers by owner to 1, which died by the document, command 1\"]]}",
    },
    Row {
        name: "no id is left",
        document: "{\"next\":18446744073709551615,\"entities\":[],\"frames\":1,\"commands\":[[{\"spawn\":{}}]]}",
        plan: "",
        run: "{\"frames\":0,\"asked\":1,\"refused\":[1,\"IdsSpent\"],\"entities\":[],\"globals\":{},\"told\":[[1,\"command 1, the document: the spawn found no id left\"]]}",
    },
];

/// Documents that are refused, and by what.
pub const REFUSED: [(&str, DocRefusal); 8] = [
    ("{\"next\":0", DocRefusal::Unreadable),
    (
        "{\"next\":1,\"entities\":[{\"id\":0,\"parts\":{\"owner\":5}}]}",
        DocRefusal::Dangling,
    ),
    (
        "{\"next\":0,\"entities\":[],\"systems\":[{\"kind\":\"drift\",\"name\":\"a\"},{\"kind\":\"decay\",\"name\":\"a\"}]}",
        DocRefusal::NameTaken,
    ),
    (
        "{\"next\":0,\"entities\":[],\"systems\":[{\"kind\":\"decay\",\"after\":[\"z\"]}]}",
        DocRefusal::UnknownDependency,
    ),
    (
        "{\"next\":0,\"entities\":[],\"systems\":[{\"kind\":\"pull\"}]}",
        DocRefusal::MissingGlobal,
    ),
    (
        "{\"next\":0,\"entities\":[],\"store\":\"heap\"}",
        DocRefusal::UnknownStore,
    ),
    (
        "{\"next\":0,\"entities\":[],\"workers\":65}",
        DocRefusal::TooManyWorkers,
    ),
    ("{\"next\":1.5,\"entities\":[]}", DocRefusal::NotWhole),
];
