// What is shown of the two calls together: reading what dump wrote gives back what the log's pins records say. There is no code.
#![tactic(auto)]
