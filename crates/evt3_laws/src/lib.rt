// The laws of EVT3: what holds of its readings and its spelling, whatever the bytes and the rows are. There is no code here. specs/Promises.antt says
// the laws, over the definitions that the contracts of evt3 cite, and proofs/Kept.antt has each under the name in lower case.
#![tactic(auto)]
