//! Descriptions of three instances and one resource.
use std::alloc::{AllocError, Global};

/// The resource's model, how many replicas and partitions it has, its mode, and what else the
/// description says.
pub type Text = (&'static str, u32, u32, &'static str, &'static str);

/// The one partition is wanted on the three in their order.
const IN_ORDER: &str = r#""SEMI_AUTO","lists":[["n1","n2","n3"]]"#;

/// The second instance stands first.
const SECOND: &str = r#""SEMI_AUTO","lists":[["n2","n1","n3"]]"#;

const ON_THIRD: &str = r#""SEMI_AUTO","lists":[["n3"]]"#;

const ON_FIRST: &str = r#""SEMI_AUTO","lists":[["n1"],["n1"],["n1"],["n1"]]"#;

const BOTH_IN_ORDER: &str = r#""SEMI_AUTO","lists":[["n1","n2","n3"],["n1","n2","n3"]]"#;

const SLAVES: &str = r#""CUSTOMIZED",
"maps":[[{"instance":"n2","state":"SLAVE"},{"instance":"n1","state":"SLAVE"}]]"#;

const MASTERS: &str = r#""CUSTOMIZED",
"maps":[[{"instance":"n1","state":"MASTER"},{"instance":"n2","state":"MASTER"}]]"#;

/// The controller places the partitions.
const PLACED: &str = r#""FULL_AUTO""#;

/// Of the states two have a bound; between the two stands one without.
const FEW_STATES: &str = r#","models":[
{"name":"Few","states":[{"name":"TOP","bound":"1"},{"name":"IDLE","bound":"-1"},
{"name":"LOW","bound":"1"},{"name":"OFFLINE","bound":"-1"}],"initial":"OFFLINE","transitions":[
"OFFLINE>LOW","LOW>TOP","TOP>IDLE","IDLE>OFFLINE","LOW>OFFLINE","OFFLINE>DROPPED"]}]"#;

/// One may be in P and two in Q.
const P_AND_Q: &str = r#","models":[
{"name":"Swap","states":[{"name":"P","bound":"1"},{"name":"Q","bound":"2"},
{"name":"OFFLINE","bound":"-1"}],"initial":"OFFLINE","transitions":[
"OFFLINE>Q","Q>P","P>Q","Q>OFFLINE","OFFLINE>DROPPED"]}]"#;

/// At most one message is in flight to an instance.
const ONE_EACH: &str = r#","throttles":[{"scope":"instance","limit":1}]"#;

/// At most one of the messages in flight is to go offline, at most three are in flight, and at most
/// one to an instance.
const THREE_RULES: &str = r#","throttles":[
{"scope":"resource","from":"ONLINE","to":"OFFLINE","limit":1},
{"scope":"cluster","limit":3},{"scope":"instance","limit":1}]"#;

pub const LISTED: Text = ("MasterSlave", 2, 1, IN_ORDER, "");

pub const THIRD: Text = ("MasterSlave", 2, 1, ON_THIRD, "");

pub const MAPPED: Text = ("MasterSlave", 2, 1, SLAVES, "");

pub const ANYWHERE: Text = ("MasterSlave", 2, 1, PLACED, "");

pub const FEW: Text = ("Few", 3, 1, IN_ORDER, FEW_STATES);

pub const THREE_REPLICAS: Text = ("MasterSlave", 3, 1, IN_ORDER, "");

pub const SECOND_FIRST: Text = ("MasterSlave", 3, 1, SECOND, "");

pub const SWAP: Text = ("Swap", 3, 1, IN_ORDER, P_AND_Q);

pub const SWAPPED: Text = ("Swap", 3, 1, SECOND, P_AND_Q);

/// Two masters, of which one may be.
pub const TWO_MASTERS: Text = ("MasterSlave", 2, 1, MASTERS, "");

pub const THROTTLED: Text = ("OnlineOffline", 1, 4, ON_FIRST, ONE_EACH);

pub const RULES: Text = ("OnlineOffline", 2, 3, PLACED, THREE_RULES);

/// The same without throttles.
pub const NO_RULES: Text = ("OnlineOffline", 2, 3, PLACED, "");

pub const MIXED: Text = ("MasterSlave", 3, 2, BOTH_IN_ORDER, ONE_EACH);

fn push_resource(alloc: Global, json: &mut String, text: Text) -> Result<(), AllocError> {
    let (model, replicas, partitions, mode, _more) = text;
    json.push_str(r#","resources":[{"name":"db","model":""#)?;
    json.push_str(model)?;
    json.push_str(&format!(in alloc; "\",\"replicas\":{replicas},\"partitions\":{partitions}")?)?;
    json.push_str(r#","mode":"#)?;
    json.push_str(mode)
}

/// The description as a text.
pub fn written(alloc: Global, text: Text) -> Result<String, AllocError> {
    let mut json = String::from_str(alloc, r#"{"version":1,"instances":["n1","n2","n3"]"#)?;
    json.push_str(text.4)?;
    push_resource(alloc, &mut json, text)?;
    json.push_str("}]}\n---\n")?;
    Ok(json)
}
