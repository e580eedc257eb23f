//! An update of one path to w, in whose first round the set of switches that packets may come to before w grows by two changes, and
//! in the second one by one more.
use example_files::UpdateTexts;

/// Switches s, x, y and z in a row, each with a link to w besides.
fn topology() -> &'static [u8] {
    br#"{"switches":[{"name":"s","capacity":8},{"name":"x","capacity":8},{"name":"y","capacity":8},{"name":"z","capacity":8},{"name":"w","capacity":8}],"links":[["s:2","w:2"],["s:3","x:1"],["x:2","w:3"],["x:3","y:1"],["y:2","w:4"],["y:3","z:1"],["z:2","w:5"]],"hosts":["s:1","w:1"],"vlans":["untagged"],"tags":[3000,3009]}"#
}

/// s, x and y send to w.
fn straight() -> &'static [u8] {
    br#"{"rules":[{"switch":"s","priority":100,"dst":"10.0.0.0/24","out":2},{"switch":"x","priority":100,"dst":"10.0.0.0/24","out":2},{"switch":"y","priority":100,"dst":"10.0.0.0/24","out":2},{"switch":"w","priority":100,"dst":"10.0.0.0/24","out":1}]}"#
}

/// The path s x y z w.
fn along_the_row() -> &'static [u8] {
    br#"{"rules":[{"switch":"s","priority":100,"dst":"10.0.0.0/24","out":3},{"switch":"x","priority":100,"dst":"10.0.0.0/24","out":3},{"switch":"y","priority":100,"dst":"10.0.0.0/24","out":3},{"switch":"z","priority":100,"dst":"10.0.0.0/24","out":2},{"switch":"w","priority":100,"dst":"10.0.0.0/24","out":1}]}"#
}

/// The change at y waits for the insert at z.
pub(crate) fn update() -> UpdateTexts<'static> {
    UpdateTexts {
        topology: topology(),
        old: straight(),
        new: along_the_row(),
        policy: br#"{"demands":[{"from":"s:1","dst":"10.0.0.0/24","through":["w"],"deliver":true}]}"#,
    }
}

/// Before w are s, x and y in the first round, and z too in the second.
pub(crate) fn plan() -> &'static [u8] {
    br#"{"befores":[[0,1,2],[0,1,2,3]],"format":2,"kind":"ordered","numberings":[[0,0,0,0,0],[3,2,1,0,0],[4,3,2,1,0]],"picks":[[1,0,0],[1,1,1],[1,2,0],[1,3,0],[1,4,0],[1,5,0],[2,1,2]],"rounds":[[["replace",0],["replace",1],["insert",2]],[["replace",3]]],"rules":[{"dst":"10.0.0.0/24","out":3,"priority":100,"switch":"s"},{"dst":"10.0.0.0/24","out":3,"priority":100,"switch":"x"},{"dst":"10.0.0.0/24","out":2,"priority":100,"switch":"z"},{"dst":"10.0.0.0/24","out":3,"priority":100,"switch":"y"}],"uses":[[0,[]],[1,[0]],[2,[1]]]}
"#
}
