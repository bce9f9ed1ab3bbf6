//! What look-ups answer, and lines that are no command.

pub(crate) const LOOK_UPS: &str = r#"row an empty table
1 {"cmd":"size"}
= {"ok":true,"size":0}
1 {"cmd":"range","index":"by_balance"}
= {"more":false,"ok":true,"rows":[]}
1 {"cmd":"list","index":"line"}
= {"more":false,"ok":true,"rows":[]}
1 {"cmd":"nth","index":"by_balance","n":0}
= {"error":"id","ok":false}

row places among equal keys
1 {"cmd":"insert","row":{"owner":"a","balance":5,"vip":false}}
= {"id":0,"ok":true}
1 {"cmd":"insert","row":{"owner":"b","balance":5,"vip":false}}
= {"id":1,"ok":true}
1 {"cmd":"insert","row":{"owner":"c","balance":5,"vip":true}}
= {"id":2,"ok":true}
1 {"cmd":"rank","index":"by_balance","id":0}
= {"ok":true,"rank":0}
1 {"cmd":"rank","index":"by_balance","id":1}
= {"ok":true,"rank":1}
1 {"cmd":"rank","index":"by_balance","id":2}
= {"ok":true,"rank":2}
1 {"cmd":"nth","index":"by_balance","n":2}
= {"ok":true,"row":{"balance":5,"id":2,"owner":"c","vip":true}}
1 {"cmd":"nth","index":"by_balance","n":3}
= {"error":"id","ok":false}
1 {"cmd":"lower_rank","index":"by_balance","key":[5]}
= {"ok":true,"rank":0}
1 {"cmd":"upper_rank","index":"by_balance","key":[5]}
= {"ok":true,"rank":3}
1 {"cmd":"count","index":"by_balance","key":[5]}
= {"count":3,"ok":true}
1 {"cmd":"range","index":"by_class"}
= {"more":false,"ok":true,"rows":[{"balance":5,"id":2,"owner":"c","vip":true},{"balance":5,"id":0,"owner":"a","vip":false},{"balance":5,"id":1,"owner":"b","vip":false}]}
1 {"cmd":"find","index":"by_vip","key":[false]}
= {"ok":true,"row":{"balance":5,"id":0,"owner":"a","vip":false}}
1 {"cmd":"lower_rank","index":"by_class","key":[false]}
= {"error":"kind","ok":false}

row a replace keeps its place where its key stays
after places among equal keys
1 {"cmd":"replace","id":0,"row":{"owner":"a","balance":5,"vip":true}}
= {"ok":true}
1 {"cmd":"range","index":"by_balance"}
= {"more":false,"ok":true,"rows":[{"balance":5,"id":0,"owner":"a","vip":true},{"balance":5,"id":1,"owner":"b","vip":false},{"balance":5,"id":2,"owner":"c","vip":true}]}
1 {"cmd":"find","index":"by_vip","key":[true]}
= {"ok":true,"row":{"balance":5,"id":2,"owner":"c","vip":true}}
1 {"cmd":"list","index":"line"}
= {"more":false,"ok":true,"rows":[{"balance":5,"id":0,"owner":"a","vip":true},{"balance":5,"id":1,"owner":"b","vip":false},{"balance":5,"id":2,"owner":"c","vip":true}]}
1 {"cmd":"replace","id":0,"row":{"owner":"a","balance":6,"vip":true}}
= {"ok":true}
1 {"cmd":"replace","id":0,"row":{"owner":"a","balance":5,"vip":true}}
= {"ok":true}
1 {"cmd":"range","index":"by_balance"}
= {"more":false,"ok":true,"rows":[{"balance":5,"id":1,"owner":"b","vip":false},{"balance":5,"id":2,"owner":"c","vip":true},{"balance":5,"id":0,"owner":"a","vip":true}]}
1 {"cmd":"range","index":"by_class"}
= {"more":false,"ok":true,"rows":[{"balance":5,"id":2,"owner":"c","vip":true},{"balance":5,"id":0,"owner":"a","vip":true},{"balance":5,"id":1,"owner":"b","vip":false}]}

row bounds over a descending part
1 {"cmd":"insert","row":{"owner":"a","balance":1,"vip":true}}
= {"id":0,"ok":true}
1 {"cmd":"insert","row":{"owner":"b","balance":2,"vip":false}}
= {"id":1,"ok":true}
1 {"cmd":"insert","row":{"owner":"c","balance":3,"vip":true}}
= {"id":2,"ok":true}
1 {"cmd":"range","index":"by_class","lower":{"ge":[false]}}
= {"more":false,"ok":true,"rows":[{"balance":2,"id":1,"owner":"b","vip":false}]}
1 {"cmd":"range","index":"by_class","upper":{"le":[true]}}
= {"more":false,"ok":true,"rows":[{"balance":1,"id":0,"owner":"a","vip":true},{"balance":3,"id":2,"owner":"c","vip":true}]}
1 {"cmd":"range","index":"by_class","upper":{"le":[true]},"reverse":true}
= {"more":false,"ok":true,"rows":[{"balance":3,"id":2,"owner":"c","vip":true},{"balance":1,"id":0,"owner":"a","vip":true}]}
1 {"cmd":"range","index":"by_class","lower":{"gt":[true,1]},"upper":{"lt":[false]}}
= {"more":false,"ok":true,"rows":[{"balance":3,"id":2,"owner":"c","vip":true}]}
1 {"cmd":"range","index":"by_class","lower":{"gt":[false]},"upper":{"lt":[true]}}
= {"more":false,"ok":true,"rows":[]}
1 {"cmd":"range","index":"by_class","lower":{"ge":[true,3]},"limit":1}
= {"more":true,"ok":true,"rows":[{"balance":3,"id":2,"owner":"c","vip":true}]}
1 {"cmd":"range","index":"by_class","lower":{"ge":[1]}}
= {"error":"key","ok":false}

row ranges from one bound to the other
1 {"cmd":"insert","row":{"owner":"a","balance":10,"vip":false}}
= {"id":0,"ok":true}
1 {"cmd":"insert","row":{"owner":"b","balance":20,"vip":false}}
= {"id":1,"ok":true}
1 {"cmd":"insert","row":{"owner":"c","balance":20,"vip":false}}
= {"id":2,"ok":true}
1 {"cmd":"insert","row":{"owner":"d","balance":30,"vip":false}}
= {"id":3,"ok":true}
1 {"cmd":"range","index":"by_balance","lower":{"ge":[20]},"upper":{"le":[20]}}
= {"more":false,"ok":true,"rows":[{"balance":20,"id":1,"owner":"b","vip":false},{"balance":20,"id":2,"owner":"c","vip":false}]}
1 {"cmd":"range","index":"by_balance","lower":{"ge":[10]},"upper":{"lt":[30]},"reverse":true}
= {"more":false,"ok":true,"rows":[{"balance":20,"id":2,"owner":"c","vip":false},{"balance":20,"id":1,"owner":"b","vip":false},{"balance":10,"id":0,"owner":"a","vip":false}]}
1 {"cmd":"range","index":"by_balance","lower":{"gt":[10]},"upper":{"le":[30]},"reverse":true,"limit":1}
= {"more":true,"ok":true,"rows":[{"balance":30,"id":3,"owner":"d","vip":false}]}
1 {"cmd":"range","index":"by_balance","lower":{"ge":[20]},"upper":{"lt":[30]},"limit":2}
= {"more":false,"ok":true,"rows":[{"balance":20,"id":1,"owner":"b","vip":false},{"balance":20,"id":2,"owner":"c","vip":false}]}
1 {"cmd":"range","index":"by_balance","lower":{"gt":[10]},"upper":{"le":[30]},"limit":2}
= {"more":true,"ok":true,"rows":[{"balance":20,"id":1,"owner":"b","vip":false},{"balance":20,"id":2,"owner":"c","vip":false}]}
1 {"cmd":"range","index":"by_balance","lower":{"gt":[20]},"upper":{"le":[30]}}
= {"more":false,"ok":true,"rows":[{"balance":30,"id":3,"owner":"d","vip":false}]}
1 {"cmd":"range","index":"by_balance","lower":{"gt":[10]},"upper":{"lt":[20]},"reverse":true}
= {"more":false,"ok":true,"rows":[]}
1 {"cmd":"range","index":"by_balance","lower":{"ge":[30]},"upper":{"le":[10]}}
= {"more":false,"ok":true,"rows":[]}

row lines that are no command
1 {"cmd":"undo"
= {"error":"json","ok":false}
1 []
= {"error":"form","ok":false}
1 {"cmd":"fly"}
= {"error":"form","ok":false}
1 {"cmd":"size","x":1}
= {"error":"form","ok":false}
1 { "cmd" : "undo" }
= {"error":"session","ok":false}
1 {"cmd":"get","id":-1}
= {"error":"form","ok":false}
1 {"cmd":"get","id":9223372036854775808}
= {"error":"form","ok":false}

row a text with escapes
1 {"cmd":"insert","row":{"owner":"\u0001\"\\","balance":-7,"vip":true}}
= {"id":0,"ok":true}
1 {"cmd":"get","id":0}
= {"ok":true,"row":{"balance":-7,"id":0,"owner":"\u0001\"\\","vip":true}}

row the name of a table
1 {"cmd":"get","id":0,"table":"accounts"}
= {"error":"id","ok":false}
1 {"cmd":"get","id":0,"table":"none"}
= {"error":"table","ok":false}
"#;
